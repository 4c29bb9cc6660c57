ghost use Rattle.exports.specs.Bound.{all_bound, index_bound, pipeline_steps, slots_and_steps};
ghost use Rattle.exports.specs.Limits.{draw_judged, draw_written, index_written, limits_written, result_status};
ghost use Rattle.render.specs.Bound.{unbound};
ghost use Rattle.std.specs.Option.{option_copied};
ghost use Rattle.std.specs.Prelude.{◌≡◌};

use exports::bound::{Index, Slot, Step};
use exports::limits::{
    Draw, Limits, Report, find_index_limit, find_limits, give_report, judge_draw,
};
use exports::status::give;

// The steps, where there is a pipeline: C has a flag for it.
fn steps_of(pipeline: u64, steps: &[Step]) -> Option<&[Step]>
    ensures { option_copied result ≡ pipeline_steps pipeline steps.now }
{
    (pipeline != 0).then_some(steps)
}

/// The limits of a pipeline's steps over the slots; all 0 where there is no pipeline.
#[unsafe(no_mangle)]
pub extern "C" fn jorumspit_limits(
    slots: &[Slot],
    pipeline: u64,
    steps: &[Step],
    limits: &mut Limits,
) -> u32
    ensures status { result ≡ result_status (slots_and_steps slots.now pipeline steps.now) }
    ensures written { limits.new ≡ limits_written (slots_and_steps slots.now pipeline steps.now) limits.old }
{
    give(find_limits(slots, steps_of(pipeline, steps)), limits)
}

/// How many indices of `bytes` a range has; 0 where none is bound.
#[unsafe(no_mangle)]
pub extern "C" fn jorumspit_index_limit(index: &Index, limit: &mut u64) -> u32
    ensures status { result ≡ result_status (index_bound index.now unbound) }
    ensures written { limit.new ≡ index_written (index_bound index.now unbound) limit.old }
{
    give(find_index_limit(index), limit)
}

/// Judges a direct draw over what is bound. The report is written whatever the status is.
#[unsafe(no_mangle)]
pub extern "C" fn jorumspit_draw(
    slots: &[Slot],
    pipeline: u64,
    steps: &[Step],
    index: &Index,
    draw: &Draw,
    report: &mut Report,
) -> u32
    ensures status { result ≡ result_status (draw_judged (all_bound slots.now pipeline steps.now index.now) draw.now) }
    ensures written { report.new ≡ draw_written (draw_judged (all_bound slots.now pipeline steps.now index.now) draw.now) }
{
    let judged = judge_draw(slots, steps_of(pipeline, steps), index, draw);
    give_report(judged, report)
}
