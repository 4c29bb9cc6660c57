ghost use Rattle.std.specs.Prelude.{◌≡◌, ◌+◌, ◌^◌, ◌<◌, cond, Ok, Err, nat_lt};
ghost use Rattle.render.specs.Bound.{bound};
ghost use Rattle.render.specs.Draws.{beyond, vertex_within, instance_within};
ghost use Rattle.render.specs.Laws.{LimitsLaw};
ghost use Rattle.render.specs.Limits.{least, own_limit, limits_from, unlimited, limits_of, index_limit_of};

use super::bindings::{Bindings, VertexSlot};
use super::steps::{MAX_VERTEX_BUFFERS, VertexStep, VertexStepMode};
use command::args::DrawArgs;
use command::refusal::{Beyond, Refusal};

/// How many vertices and instances the vertex buffers have, and which slot has the least.
/// By default nothing can be drawn.
// A limit and its slot are two fields each, as in wgpu-core, whose names ported files keep.
#[derive(Clone, Copy, Default)]
pub struct VertexLimits {
    /// Length of the shortest vertex rate vertex buffer
    pub vertex_limit: u64,
    /// Buffer slot which the shortest vertex rate vertex buffer is bound to
    pub vertex_limit_slot: u32,
    /// Length of the shortest instance rate vertex buffer
    pub instance_limit: u64,
    /// Buffer slot which the shortest instance rate vertex buffer is bound to
    pub instance_limit_slot: u32,
}

/// The least limit of the slots so far, and the first slot that has it.
#[derive(Clone, Copy)]
struct Least {
    limit: u64,
    slot: u32,
}

/// No limit yet.
const UNLIMITED: Least = Least {
    limit: u64::MAX,
    slot: 0,
};

impl Least {
    /// Takes up the limit of one slot: only a smaller one replaces that of an earlier slot.
    fn lower(&mut self, slot: u32, limit: u64)
        ensures { self.new ≡ cond (nat_lt limit self.old.limit) (least limit slot) self.old }
    {
        if limit < self.limit {
            *self = Least { limit, slot };
        }
    }
}

/// How many items of a step the bytes of its slot are good for; nothing where they are for any number.
fn own_limit(step: &VertexStep, size: u64) -> Option<u64>
    requires { size < 2 ^ 32 }
    ensures { result ≡ own_limit step.now size }
{
    if size < step.last_stride {
        // The buffer cannot fit the last item.
        return Some(0);
    }
    if step.stride == 0 {
        // The last item fits, and is repeated.
        return None;
    }
    Some((size - step.last_stride) / step.stride + 1)
}

/// Holds what a draw names, up to `last`, to a limit.
pub(crate) fn check_limit(last: u64, limit: u64) -> Result<(), Beyond>
    ensures { result ≡ cond (nat_lt limit last) (Err (beyond last limit)) (Ok tt) }
{
    if last > limit {
        return Err(Beyond { last, limit });
    }
    Ok(())
}

impl VertexLimits {
    /// The limits of a pipeline's steps over the slots; a step past the last slot has no say.
    pub fn new(
        slots: &[VertexSlot; MAX_VERTEX_BUFFERS],
        steps: &[Option<VertexStep>],
    ) -> VertexLimits
        ensures { result ≡ limits_from slots.now steps.now 0 unlimited }
    {
        let mut vertex = UNLIMITED;
        let mut instance = UNLIMITED;
        // In the order of the slots, so that of equal limits the first slot's stands.
        for (i, (slot, step)) in slots.iter().zip(steps).enumerate() {
            let Some(step) = step else {
                continue;
            };
            let Some(range) = slot.range else {
                // Missing required vertex buffer
                return VertexLimits::default();
            };
            let Some(limit) = own_limit(step, range.size()) else {
                continue;
            };
            // By `as`: no slot is past the sixteenth, and `try_from` would add a failure that there is not.
            match step.mode {
                VertexStepMode::Vertex => vertex.lower(i as u32, limit),
                VertexStepMode::Instance => instance.lower(i as u32, limit),
            }
        }
        VertexLimits {
            vertex_limit: vertex.limit,
            vertex_limit_slot: vertex.slot,
            instance_limit: instance.limit,
            instance_limit_slot: instance.slot,
        }
    }

    // This and the next are two functions, named as in wgpu-core, whose names ported files keep; what they compare is one.
    /// Holds the vertices that a draw names to the limit.
    pub(crate) fn validate_vertex_limit(&self, args: DrawArgs) -> Result<(), Refusal>
        ensures { result ≡ vertex_within self.now (args.first + args.count) }
    {
        check_limit(args.last(), self.vertex_limit).map_err(|beyond| Refusal::VertexBeyondLimit(
            beyond,
            self.vertex_limit_slot,
        ))
    }

    /// Holds the instances that a draw names to the limit.
    pub(crate) fn validate_instance_limit(&self, args: DrawArgs) -> Result<(), Refusal>
        ensures { result ≡ instance_within self.now (args.first_instance + args.instances) }
    {
        check_limit(args.last_instance(), self.instance_limit).map_err(
            |beyond| Refusal::InstanceBeyondLimit(beyond, self.instance_limit_slot),
        )
    }
}

impl Bindings {
    /// The limits of what is bound now; all 0 before any steps were set.
    pub fn limits(&self) -> VertexLimits
        ensures value { result ≡ limits_of (bound self.now) }
        ensures law { LimitsLaw (bound self.now) result }
    {
        match &self.steps {
            Some(steps) => VertexLimits::new(&self.slots, steps.as_slice()),
            None => VertexLimits::default(),
        }
    }

    /// How many indices are bound; 0 without an index binding.
    pub fn index_limit(&self) -> u64
        ensures { result ≡ index_limit_of (bound self.now) }
    {
        self.index
            .map_or(0, |index| index.range.size() / index.format.byte_size())
    }
}
