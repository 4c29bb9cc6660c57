ghost use Rattle.std.specs.Prelude.{◌≡◌, ◌&&◌, length, if◌then◌else◌};
ghost use Rattle.frame_exports.specs.Frames.{answers_written, batches_written, counts_told, draws_written, enough, frame_of, frame_status, lawful_frame, plan_of, plan_status};

use frame_exports::frames::{FrameCounts, FrameSettings, Outputs, put_frame};
use frame_exports::records::{BatchRecord, DrawRecord, Request};
use frame_exports::status::status_of;
use frame_exports::subranges::Place;

/// Records requests for indirect draws over sources of given sizes, plans the frame, and writes the answers, the
/// accepted draws, the batches and how much it all takes. Nothing is written at status 1, 66 or 67.
#[tactic(auto, using(frame_exports::proofs::Statuses::status_of_frame))]
#[unsafe(no_mangle)]
pub extern "C" fn jorumspit_frame(
    settings: &FrameSettings,
    sources: &[u64],
    requests: &[Request],
    answers: &mut [Place],
    draws: &mut [DrawRecord],
    batches: &mut [BatchRecord],
    counts: &mut FrameCounts,
) -> u32
    ensures status { result ≡ frame_status settings.now (enough (length requests.now) (length answers.old) (length draws.old) (length batches.old)) (plan_status (plan_of settings.now.block_size settings.now.buffer_size (frame_of settings.now sources.now requests.now))) }
    ensures answers { answers.new ≡ (if lawful_frame settings.now && enough (length requests.now) (length answers.old) (length draws.old) (length batches.old) then answers_written settings.now sources.now requests.now answers.old else answers.old) }
    ensures draws { draws.new ≡ (if lawful_frame settings.now && enough (length requests.now) (length answers.old) (length draws.old) (length batches.old) then draws_written (frame_of settings.now sources.now requests.now) draws.old else draws.old) }
    ensures batches { batches.new ≡ (if lawful_frame settings.now && enough (length requests.now) (length answers.old) (length draws.old) (length batches.old) then batches_written settings.now.block_size settings.now.buffer_size (frame_of settings.now sources.now requests.now) batches.old else batches.old) }
    ensures counts { counts.new ≡ (if lawful_frame settings.now && enough (length requests.now) (length answers.old) (length draws.old) (length batches.old) then counts_told (frame_of settings.now sources.now requests.now).batching (plan_of settings.now.block_size settings.now.buffer_size (frame_of settings.now sources.now requests.now)) else counts.old) }
{
    let mut outputs = Outputs {
        answers,
        draws,
        batches,
        counts,
    };
    status_of(put_frame(settings, sources, requests, &mut outputs))
}
