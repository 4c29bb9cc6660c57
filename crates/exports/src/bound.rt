ghost use Rattle.exports.specs.Bound.{bindings_of, host_bound, index_bound, raw_of, slot_after, slot_asked, slots_bound, through};
ghost use Rattle.render.specs.Bound.{bound};
ghost use Rattle.render.specs.Requests.{after_steps, steps_answer};
ghost use Rattle.std.specs.Prelude.{◌≡◌, map};
ghost use Rattle.std.specs.Option.{option_copied};

use arrayvec::ArrayVec;
use command::refusal::Refusal;
use render::bindings::Bindings;
use render::steps::{MAX_VERTEX_BUFFERS, RawStep};

/// The range that indexed draws take their indices from, in bytes.
// An Option has no layout that C knows: a flag says whether there is a range.
#[repr(C)]
#[derive(Clone, Copy)]
pub struct Index {
    /// 0 where none is bound.
    pub present: u64,
    pub start: u64,
    pub end: u64,
    /// Bytes of one index: 2 or 4.
    pub bytes: u64,
}

/// The range of a vertex buffer slot, in bytes.
// A flag in place of an Option, as in `Index`.
#[repr(C)]
#[derive(Clone, Copy)]
pub struct Slot {
    /// 0 for a slot that is empty.
    pub present: u64,
    pub start: u64,
    pub end: u64,
}

/// How a pipeline reads the slot of the same number, in bytes.
// A flag in place of an Option, as in `Index`, and a mode that a host may have wrong.
#[repr(C)]
#[derive(Clone, Copy)]
pub struct Step {
    /// 0 for a slot that is not read.
    pub present: u64,
    pub stride: u64,
    pub last_stride: u64,
    /// 0 for a step by vertex, 1 for one by instance.
    pub mode: u64,
}

// A step as the bindings take it.
impl From<Step> for Option<RawStep> {
    ghost from_gives = { λ step raw. raw ≡ raw_of step };

    fn from(step: Step) -> Option<RawStep> {
        if step.present == 0 {
            return None;
        }
        Some(RawStep {
            stride: step.stride,
            last_stride: step.last_stride,
            mode: step.mode,
        })
    }
}

// Binds or empties one slot, as its flag asks: an `Option` between would be taken apart at once, here and for the index.
fn bind_slot(bindings: &mut Bindings, number: u64, slot: &Slot) -> Result<(), Refusal>
    ensures answer { result ≡ slot_asked number slot.now }
    ensures after { bound bindings.new ≡ slot_after number slot.now (bound bindings.old) }
{
    if slot.present == 0 {
        return bindings.clear_slot(number);
    }
    bindings.set_slot(number, slot.start, slot.end)
}

// Binds the slots from the first on.
#[tactic(auto, using(crate::proofs::Binding::slots_more, crate::proofs::Binding::slots_all))]
fn bind_slots(bindings: &mut Bindings, slots: &[Slot]) -> Result<(), Refusal>
    ensures { through result (bound bindings.new) ≡ slots_bound 0 slots.now (bound bindings.old) }
{
    for (number, slot) in slots.iter().enumerate() {
        // A slot is asked for by its number; Rust has no From from a usize.
        bind_slot(bindings, number as u64, slot)?;
    }
    Ok(())
}

// Sets the steps of a pipeline.
fn bind_steps(bindings: &mut Bindings, steps: &[Step]) -> Result<(), Refusal>
    ensures answer { result ≡ steps_answer (map raw_of steps.now) }
    ensures after { bound bindings.new ≡ after_steps (bound bindings.old) (map raw_of steps.now) }
{
    if steps.len() > MAX_VERTEX_BUFFERS {
        return Err(Refusal::NoSuchSlot);
    }
    let mut raw: ArrayVec<Option<RawStep>, MAX_VERTEX_BUFFERS> = ArrayVec::new();
    for step in steps {
        raw.push(Option::from(*step));
    }
    bindings.set_steps(raw.as_slice())
}

// What is bound after the slots and, where there is a pipeline, its steps.
pub(crate) fn bind(slots: &[Slot], steps: Option<&[Step]>) -> Result<Bindings, Refusal>
    ensures { bindings_of result ≡ host_bound slots.now (option_copied steps.entry) }
{
    let mut bindings = Bindings::new();
    bind_slots(&mut bindings, slots)?;
    if let Some(steps) = steps {
        bind_steps(&mut bindings, steps)?;
    }
    Ok(bindings)
}

// Binds the index range, where there is one.
pub(crate) fn bind_index(bindings: &mut Bindings, index: &Index) -> Result<(), Refusal>
    ensures { through result (bound bindings.new) ≡ index_bound index.now (bound bindings.old) }
{
    if index.present == 0 {
        return Ok(());
    }
    bindings.set_index(index.start, index.end, index.bytes)
}
