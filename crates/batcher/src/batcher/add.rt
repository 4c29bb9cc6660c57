ghost use Rattle.std.specs.Prelude.{◌≡◌, ℕ, List, [], ◌++◌, take, None, MatchResult};
ghost use Rattle.batcher.specs.Holds.{Bounded, Holds, asked};
ghost use Rattle.batcher.specs.Judged.{Terms, Wanted, answer_in, frame_terms, recorded_in};
ghost use Rattle.batcher.specs.View.{batching, recording};

use super::super::records::{DrawIndirectValidationBatch, DrawRequest, IndirectDraw};
use super::super::tables::Tables;
use super::super::terms::FrameTerms;
use super::DrawBatcher;
use command::refusal::Refusal;
use places::current::CurrentEntry;
use places::supply::Supply;

impl DrawBatcher {
    /// A batcher with nothing recorded.
    pub fn new() -> DrawBatcher
        ensures value { batching result ≡ record { draws = 0; batches = 0; current = None } }
        ensures holds { (t : Terms) (ds : List IndirectDraw) (bs : List DrawIndirectValidationBatch) → Holds t [] (batching result) ds bs }
    {
        DrawBatcher {
            draws: 0,
            batches: 0,
            current: None,
        }
    }

    /// Adds an indirect draw to be validated, and answers where its checked arguments will stand: the index of the
    /// destination buffer and the byte offset in it. A refused request leaves the batcher, the supply and both
    /// tables as they were, whatever the tables hold. Over tables that only this batcher has written, with the same
    /// terms in every call, the records are those of the accepted draws, in their order.
    pub fn add<S: Supply>(
        &mut self,
        supply: &mut S,
        tables: &mut Tables,
        terms: &FrameTerms,
        request: &DrawRequest,
    ) -> Result<CurrentEntry, Refusal>
        ensures answer { result ≡ answer_in S.Supply.held S.Supply.more (frame_terms terms.now) (recording self.old (S.Supply.view supply.old) tables.old) request.now }
        ensures after { recording self.new (S.Supply.view supply.new) tables.new ≡ recorded_in S.Supply.held S.Supply.more S.Supply.ensured (frame_terms terms.now) (recording self.old (S.Supply.view supply.old) tables.old) request.now }
        ensures kept { S.Supply.names supply.new ≡ S.Supply.names supply.old }
        ensures same_draws { tables.new.draws.ghost_name ≡ tables.old.draws.ghost_name }
        ensures same_batches { tables.new.batches.ghost_name ≡ tables.old.batches.ghost_name }
        ensures holds { (ws : List Wanted) → Holds (frame_terms terms.now) ws (batching self.old) tables.old.draws.now tables.old.batches.now → MatchResult result (λ _. Holds (frame_terms terms.now) (ws ++ asked request.now) (batching self.new) tables.new.draws.now tables.new.batches.now) (λ _. Holds (frame_terms terms.now) ws (batching self.new) tables.new.draws.now tables.new.batches.now) }
        ensures bounded { (ws : List Wanted) → Holds (frame_terms terms.now) ws (batching self.new) tables.new.draws.now tables.new.batches.now → Bounded terms.now.sizes.buffer (take self.new.batches tables.new.batches.now) }
    {
        // Judged whole, then the supply is asked, and only then anything is written.
        let chosen = self.judge(tables, terms, request)?;
        if let Some(index) = chosen.asks {
            supply.ensure(index)?;
        }
        tables.draws[self.draws] = chosen.draw;
        tables.batches[chosen.draw.batch] = chosen.batch;
        self.draws += 1;
        self.batches = self.batches.max(chosen.draw.batch + 1);
        self.current = Some(chosen.current);
        Ok(chosen.draw.place)
    }
}
