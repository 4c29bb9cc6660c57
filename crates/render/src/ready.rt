ghost use Rattle.std.specs.Prelude.{◌≡◌, ◌≤◌, length};
ghost use Rattle.render.specs.Bound.{bound};
ghost use Rattle.render.specs.Laws.{ReadyExactly};
ghost use Rattle.render.specs.Ready.{covered, ready};

use super::bindings::{Bindings, VertexSlot};
use super::steps::{MAX_VERTEX_BUFFERS, VertexStep};
use command::family::DrawCommandFamily;
use command::refusal::Refusal;

/// Whether the slot of each step that is present has a range.
fn buffers_bound(slots: &[VertexSlot; MAX_VERTEX_BUFFERS], steps: &[Option<VertexStep>]) -> bool
    requires { length steps.now ≤ 16 }
    ensures { result ≡ covered slots.now steps.now }
{
    slots
        .iter()
        .zip(steps)
        .all(|(slot, step)| step.is_none() || slot.range.is_some())
}

// A caller may write any number for a kind: whether there is such a kind is judged last.
impl Bindings {
    /// Whether a draw of this kind can be asked for with what is bound, and its family:
    /// steps are judged first, then their slots, then the index binding, then the kind.
    pub fn is_ready(&self, kind: u64) -> Result<DrawCommandFamily, Refusal>
        ensures answer { result ≡ ready (bound self.now) kind }
        ensures exactly { ReadyExactly (bound self.now) kind result }
    {
        let Some(steps) = &self.steps else {
            return Err(Refusal::MissingPipeline);
        };
        if !buffers_bound(&self.slots, steps.as_slice()) {
            return Err(Refusal::MissingVertexBuffer);
        }
        let family = DrawCommandFamily::try_from(kind);
        if matches!(family, Ok(DrawCommandFamily::DrawIndexed)) && self.index.is_none() {
            return Err(Refusal::MissingIndexBuffer);
        }
        family
    }
}
