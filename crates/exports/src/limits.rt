ghost use Rattle.command.specs.Checks.{and_then};
ghost use Rattle.command.specs.Refusals.{report_of};
ghost use Rattle.exports.specs.Bound.{host_bound, index_bound};
ghost use Rattle.exports.specs.Limits.{args_of, draw_judged, draw_written, limits_told, refusal_told, result_status};
ghost use Rattle.exports.specs.Status.{refused};
ghost use Rattle.render.specs.Bound.{Bound, unbound};
ghost use Rattle.render.specs.Limits.{index_limit_of, limits_of};
ghost use Rattle.std.specs.Option.{option_copied};
ghost use Rattle.std.specs.Prelude.{◌≡◌};

use super::bound::{Index, Slot, Step, bind, bind_index};
use super::status::Failure;
use command::args::DrawArgs;
use command::refusal::Refusal;
use render::bindings::Bindings;
use render::limits::VertexLimits;

/// How many vertices and instances are bound, and which slot has the least of each.
#[repr(C)]
#[derive(Clone, Copy)]
pub struct Limits {
    pub vertex_limit: u64,
    pub vertex_limit_slot: u64,
    pub instance_limit: u64,
    pub instance_limit_slot: u64,
}

impl From<VertexLimits> for Limits {
    ghost from_gives = { λ found limits. limits ≡ limits_told found };

    fn from(found: VertexLimits) -> Limits {
        Limits {
            vertex_limit: found.vertex_limit,
            vertex_limit_slot: u64::from(found.vertex_limit_slot),
            instance_limit: found.instance_limit,
            instance_limit_slot: u64::from(found.instance_limit_slot),
        }
    }
}

/// A direct draw.
// A kind is a number here, since a host may name one that there is not.
#[repr(C)]
#[derive(Clone, Copy)]
pub struct Draw {
    /// 0 for vertices in order, 1 for vertices by an index buffer.
    pub kind: u64,
    pub count: u32,
    pub instances: u32,
    pub first: u32,
    pub first_instance: u32,
}

impl From<Draw> for DrawArgs {
    ghost from_gives = { λ draw args. args ≡ args_of draw };

    fn from(draw: Draw) -> DrawArgs {
        DrawArgs {
            count: draw.count,
            instances: draw.instances,
            first: draw.first,
            first_instance: draw.first_instance,
        }
    }
}

/// What is said of a direct draw beside its status.
// A flag and numbers that are 0 where there are none, since an Option has no layout that C knows.
#[repr(C)]
#[derive(Clone, Copy, Default)]
pub struct Report {
    /// 1 where the draw was accepted and both of its counts are above 0.
    pub draws: u64,
    /// Refusals 8 to 10: one past the last item that the draw names.
    pub last: u64,
    /// Refusals 8 to 10: the largest number that would have been accepted.
    pub limit: u64,
    /// Refusals 8 and 10: the slot that set the limit.
    pub slot: u64,
}

/// The values of a refusal, 0 for those that it has not.
impl From<Refusal> for Report {
    ghost from_gives = { λ refusal report. report ≡ refusal_told (report_of refusal) };

    fn from(refusal: Refusal) -> Report {
        let values = refusal.report();
        let (last, limit) = values
            .beyond
            .map_or((0, 0), |beyond| (beyond.last, beyond.limit));
        Report {
            draws: 0,
            last,
            limit,
            slot: values.slot.map_or(0, u64::from),
        }
    }
}

/// The limits of a pipeline's steps over the slots; all 0 where there is no pipeline.
pub fn find_limits(slots: &[Slot], steps: Option<&[Step]>) -> Result<Limits, Failure>
    ensures { result ≡ refused (λ b. limits_told (limits_of b)) (host_bound slots.now (option_copied steps.entry)) }
{
    let bindings = bind(slots, steps)?;
    Ok(Limits::from(bindings.limits()))
}

/// How many indices of `bytes` a range has; 0 where none is bound.
pub fn find_index_limit(index: &Index) -> Result<u64, Failure>
    ensures { result ≡ refused index_limit_of (index_bound index.now unbound) }
{
    let mut bindings = Bindings::new();
    bind_index(&mut bindings, index)?;
    Ok(bindings.index_limit())
}

/// Judges a direct draw over what is bound: slots, then steps, then the index range. Answers whether anything is drawn.
pub fn judge_draw(
    slots: &[Slot],
    steps: Option<&[Step]>,
    index: &Index,
    draw: &Draw,
) -> Result<bool, Refusal>
    ensures { result ≡ draw_judged (and_then (host_bound slots.now (option_copied steps.entry)) (index_bound index.now)) draw.now }
{
    let mut bindings = bind(slots, steps)?;
    bind_index(&mut bindings, index)?;
    bindings.check_draw(draw.kind, DrawArgs::from(*draw))
}

/// Writes what was judged of a draw, whatever it is, and answers its status.
// A number, since this is for C alone, as `give` is.
pub fn give_report(judged: Result<bool, Refusal>, report: &mut Report) -> u32
    ensures status { result ≡ result_status judged }
    ensures written { report.new ≡ draw_written judged }
{
    match judged {
        Ok(any) => {
            *report = Report {
                draws: u64::from(any),
                ..Report::default()
            };
            0
        }
        Err(refusal) => {
            *report = Report::from(refusal);
            u32::from(refusal.number())
        }
    }
}
