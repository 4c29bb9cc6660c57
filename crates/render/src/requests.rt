ghost use Rattle.std.specs.Prelude.{◌≡◌, ◌≤◌, true, false, length, MatchResult};
ghost use Rattle.render.specs.Bound.{bound, listed};
ghost use Rattle.render.specs.Requests.{slot_answer, after_slot, clear_answer, after_clear, range_answer, index_answer, after_index};
ghost use Rattle.render.specs.Requests.{slot_number, step_answer, steps_answer, after_steps, well_formed, step_list};

use super::bindings::{Bindings, BufferRange, IndexBinding, IndexFormat, VertexSlot};
use super::steps::{MAX_VERTEX_BUFFERS, PipelineSteps, RawStep, VertexStep};
use command::refusal::Refusal;

/// Which slot a number names, or refusal 2 where there is none.
fn slot_index(slot: u64) -> Result<usize, Refusal>
    ensures { result ≡ slot_number slot }
{
    match usize::try_from(slot) {
        Ok(slot) if slot < MAX_VERTEX_BUFFERS => Ok(slot),
        _ => Err(Refusal::NoSuchSlot),
    }
}

/// A range of two wide numbers, or refusal 3 where it ends before it starts or past 32 bits.
fn read_range(start: u64, end: u64) -> Result<BufferRange, Refusal>
    ensures { result ≡ range_answer start end }
{
    match (u32::try_from(start), u32::try_from(end)) {
        (Ok(start), Ok(end)) if start <= end => Ok(BufferRange { start, end }),
        _ => Err(Refusal::MalformedBinding),
    }
}

/// A step as it is kept, or refusal 3 where one that is present is malformed.
fn read_step(raw: Option<RawStep>) -> Result<Option<VertexStep>, Refusal>
    ensures { result ≡ step_answer raw }
{
    raw.map(VertexStep::try_from).transpose()
}

/// All of a pipeline's steps, or refusal 3 where one is malformed.
#[tactic(auto, using(std::proofs::lemmas::List::Folds::list_all_at))]
fn read_steps(raw: &[Option<RawStep>]) -> Result<PipelineSteps, Refusal>
    requires { length raw.now ≤ 16 }
    ensures { MatchResult result (λ steps. (well_formed raw.now ≡ true) × (listed steps ≡ step_list raw.now)) (λ e. (e ≡ Refusal.MalformedBinding) × (well_formed raw.now ≡ false)) }
{
    let mut steps = PipelineSteps::new();
    for step in raw {
        steps.push(read_step(*step)?);
    }
    Ok(steps)
}

// A caller may write any number for a slot, an end or the bytes of an index: each is judged here.
impl Bindings {
    /// Binds a range to a slot.
    pub fn set_slot(&mut self, slot: u64, start: u64, end: u64) -> Result<(), Refusal>
        ensures answer { result ≡ slot_answer slot start end }
        ensures after { bound self.new ≡ after_slot (bound self.old) slot start end }
    {
        let i = slot_index(slot)?;
        let range = read_range(start, end)?;
        // One record of the table is lent to be changed, so that no other is within reach.
        let target = &mut self.slots[i];
        target.range = Some(range);
        Ok(())
    }

    /// Empties a slot.
    pub fn clear_slot(&mut self, slot: u64) -> Result<(), Refusal>
        ensures answer { result ≡ clear_answer slot }
        ensures after { bound self.new ≡ after_clear (bound self.old) slot }
    {
        let i = slot_index(slot)?;
        let emptied = &mut self.slots[i];
        emptied.range = None;
        Ok(())
    }

    /// Replaces the pipeline's steps. Each is judged before any is kept.
    pub fn set_steps(&mut self, raw: &[Option<RawStep>]) -> Result<(), Refusal>
        ensures answer { result ≡ steps_answer raw.now }
        ensures after { bound self.new ≡ after_steps (bound self.old) raw.now }
    {
        if raw.len() > MAX_VERTEX_BUFFERS {
            return Err(Refusal::NoSuchSlot);
        }
        let steps = read_steps(raw)?;
        self.steps = Some(steps);
        Ok(())
    }

    /// Binds the range that indexed draws take their indices from, of `bytes` an index.
    pub fn set_index(&mut self, start: u64, end: u64, bytes: u64) -> Result<(), Refusal>
        ensures answer { result ≡ index_answer start end bytes }
        ensures after { bound self.new ≡ after_index (bound self.old) start end bytes }
    {
        let range = read_range(start, end)?;
        let format = IndexFormat::try_from(bytes)?;
        self.index = Some(IndexBinding { range, format });
        Ok(())
    }
}
