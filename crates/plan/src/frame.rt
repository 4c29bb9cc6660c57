ghost use Rattle.std.specs.Prelude.{◌≡◌, ℕ, ◌+◌, ◌^◌, ◌<◌, ◌≤◌, List, length, take, IfOk, if◌then◌else◌, Some, None};
ghost use Rattle.batcher.specs.Holds.{Holds};
ghost use Rattle.batcher.specs.Judged.{Terms, Wanted, terms};
ghost use Rattle.batcher.specs.View.{batching};
ghost use Rattle.batcher.specs.declared.records.IndirectDraw.{IndirectDraw};
ghost use Rattle.command.specs.declared.settings.Settings.{Settings};
ghost use Rattle.places.specs.Placed.{fits, following, past, placed};
ghost use Rattle.plan.specs.Planned.{batches_after, bytes_of, ending, measured, next_of, place_of, plan_answer, planned, put, supplied, supply_after};
ghost use Rattle.plan.specs.Staged.{Staged};

use batcher::batcher::DrawBatcher;
use batcher::records::DrawIndirectValidationBatch;
use command::refusal::Refusal;
use command::sizes::Sizes;
use places::current::CurrentEntry;
use places::subrange::{get_subrange_impl, next_place};
use places::supply::Supply;

/// How many staging blocks and metadata buffers a frame takes.
#[derive(Clone, Copy)]
pub struct FramePlan {
    pub blocks: usize,
    pub metadata: usize,
}

// Each entry is four words.
fn bytes_of(batch: &DrawIndirectValidationBatch) -> u64
    ensures { result ≡ bytes_of batch.now }
{
    u64::from(batch.count) * 16
}

// Where the next `size` bytes go, without asking a supply; moves the current place past them.
fn place(current: &mut Option<CurrentEntry>, size: u64, buffer_size: u64) -> CurrentEntry
    requires { following current.old < 2 ^ 64 }
    ensures value { result ≡ placed current.old size buffer_size }
    ensures current { current.new ≡ Some (past (placed current.old size buffer_size) size) }
    ensures reached { result.index ≤ following current.old }
{
    let place = next_place(*current, size, buffer_size).unwrap();
    *current = Some(CurrentEntry {
        index: place.index,
        offset: place.offset + size,
    });
    place
}

/// How many staging blocks and metadata buffers the batches need, by the place rule; nothing is changed.
#[tactic(auto, using(crate::proofs::Ending::ending_more, crate::proofs::Ending::ending_all))]
pub fn measure(batches: &[DrawIndirectValidationBatch], sizes: &Sizes) -> FramePlan
    ensures { result ≡ measured sizes.now.block sizes.now.buffer batches.now }
{
    let block = sizes.block();
    let buffer = sizes.buffer();
    let mut staging = None;
    let mut metadata = None;
    for batch in batches {
        let bytes = bytes_of(batch);
        place(&mut staging, bytes, block);
        place(&mut metadata, bytes, buffer);
    }
    FramePlan {
        blocks: staging.map_or(0, |last| last.index + 1),
        metadata: metadata.map_or(0, |last| last.index + 1),
    }
}

// Gives every batch its two places. There is a buffer for each, so that the supply does not refuse.
fn place_batches<S: Supply>(
    supply: &mut S,
    batches: &mut [DrawIndirectValidationBatch],
    sizes: &Sizes,
)
    requires enough { following (ending sizes.now.buffer batches.old None) ≤ S.Supply.held (S.Supply.view supply.old) + S.Supply.more (S.Supply.view supply.old) }
    ensures batches { batches.new ≡ planned sizes.now.block sizes.now.buffer batches.old None None }
    ensures supply { S.Supply.view supply.new ≡ supplied S.Supply.ensured sizes.now.buffer batches.old None (S.Supply.view supply.old) }
    ensures kept { S.Supply.names supply.new ≡ S.Supply.names supply.old }
{
    let block = sizes.block();
    let buffer = sizes.buffer();
    let mut staging = None;
    let mut metadata = None;
    for batch in batches.iter_mut() {
        let bytes = bytes_of(batch);
        batch.staging = place(&mut staging, bytes, block);
        let described = get_subrange_impl(supply, &mut metadata, bytes, buffer);
        batch.metadata = described.unwrap();
    }
}

/// Plans a frame: gives every recorded batch a place in staging blocks and one in metadata buffers, by the place
/// rule. It refuses where the table is shorter than what was recorded in it, or where the supply cannot hold as
/// many metadata buffers as are needed, and then changes nothing. It writes the two places of each batch and
/// nothing else.
pub fn plan<S: Supply>(
    batcher: &DrawBatcher,
    supply: &mut S,
    batches: &mut [DrawIndirectValidationBatch],
    sizes: &Sizes,
) -> Result<FramePlan, Refusal>
    ensures answer { result ≡ plan_answer sizes.now.block sizes.now.buffer batcher.now.batches batches.old (S.Supply.held (S.Supply.view supply.old) + S.Supply.more (S.Supply.view supply.old)) }
    ensures batches { batches.new ≡ batches_after sizes.now.block sizes.now.buffer batcher.now.batches result batches.old }
    ensures supply { S.Supply.view supply.new ≡ supply_after S.Supply.ensured sizes.now.buffer batcher.now.batches result batches.old (S.Supply.view supply.old) }
    ensures kept { S.Supply.names supply.new ≡ S.Supply.names supply.old }
    ensures holds { (t : Terms) (ws : List Wanted) (ds : List IndirectDraw) → Holds t ws (batching batcher.now) ds batches.old → Holds t ws (batching batcher.now) ds batches.new }
    ensures staged { (s : Settings) (ws : List Wanted) (ds : List IndirectDraw) → Holds (terms s sizes.now) ws (batching batcher.now) ds batches.old → IfOk result (λ p. Staged sizes.now.block sizes.now.buffer batcher.now.draws p.blocks p.metadata (take batcher.now.batches batches.new)) }
{
    let recorded = batcher.batches();
    if recorded > batches.len() {
        return Err(Refusal::TableFull);
    }
    let needed = measure(&batches[..recorded], sizes);
    if needed.metadata > supply.capacity() {
        return Err(Refusal::NoBuffer);
    }
    place_batches(supply, &mut batches[..recorded], sizes);
    Ok(needed)
}
