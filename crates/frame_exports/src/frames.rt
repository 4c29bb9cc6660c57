ghost use Rattle.std.specs.Prelude.{◌≡◌, ℕ, ◌≤◌, min, ◌&&◌, ◌++◌, map, length, drop, is_ok, if◌then◌else◌, MatchResult};
ghost use Rattle.batcher.specs.Judged.{frame_terms};
ghost use Rattle.batcher.specs.View.{batching};
ghost use Rattle.frame_exports.specs.Frames.{SameMemory, answers_told, answers_written, batches_written, counts_told, draws_written, frame_of, frame_outcome, lawful_frame, plan_of, room_in, settings_failure, settings_told};
ghost use Rattle.frame_exports.specs.Records.{line_of};
ghost use Rattle.sheet.specs.Frames.{recorded_all};
ghost use Rattle.sheet.specs.View.{recording_of};

use super::records::{BatchRecord, DrawRecord, Request, put_each};
use super::status::Failure;
use super::subranges::Place;
use batcher::batcher::DrawBatcher;
use batcher::records::{DrawIndirectValidationBatch, IndirectDraw};
use batcher::tables::Tables;
use batcher::terms::FrameTerms;
use command::refusal::Refusal;
use command::settings::Settings;
use command::sizes::Sizes;
use page::line::DrawLine;
use plan::frame::FramePlan;
use sheet::frame::Frame;

/// So many draws a frame can have.
const MOST_DRAWS: usize = 1024;

/// So many batches a frame can have, and as many buffers of each kind.
const MOST_BATCHES: usize = 256;

/// The numbers of the device and the sizes of buffers and blocks, all in bytes.
// Numbers, here and in the counts below, since C sees them.
#[repr(C)]
#[derive(Clone, Copy)]
pub struct FrameSettings {
    pub alignment: u64,
    pub largest_binding: u64,
    /// Of a destination or metadata buffer.
    pub buffer_size: u64,
    /// Of a staging block.
    pub block_size: u64,
}

/// How much a frame takes.
#[repr(C)]
#[derive(Clone, Copy)]
pub struct FrameCounts {
    /// How many draws were accepted.
    pub draws: u64,
    pub batches: u64,
    pub staging_blocks: u64,
    pub metadata_buffers: u64,
}

/// Where a frame is written. Each slice is written from its start, and what follows stays.
#[derive(Drop)]
pub struct Outputs<'a> {
    /// The answer to each request.
    pub answers: &'a mut [Place],
    pub draws: &'a mut [DrawRecord],
    pub batches: &'a mut [BatchRecord],
    pub counts: &'a mut FrameCounts,
}

// Records the requests, and writes each answer. It stands on those before, so that this is no conversion of items.
#[tactic(auto, unfolding(crate::specs::Frames::answers_told, sheet::specs::Frames::recorded_all))]
fn put_answers(
    frame: &mut Frame,
    tables: &mut Tables,
    sources: &[u64],
    requests: &[Request],
    answers: &mut [Place],
)
    requires { length requests.now ≤ length answers.old }
    ensures answers { answers.new ≡ answers_told (frame_terms frame.old.terms) sources.now (recording_of frame.old tables.old) requests.now ++ drop (length requests.now) answers.old }
    ensures after { recording_of frame.new tables.new ≡ recorded_all (frame_terms frame.old.terms) sources.now (recording_of frame.old tables.old) (map line_of requests.now) }
    ensures terms { frame.new.terms ≡ frame.old.terms }
{
    // By index: after a `zip` with `iter_mut` a proof does not know what was written.
    for (i, request) in requests.iter().enumerate() {
        let line = DrawLine::from(*request);
        let answer = frame.record(tables, sources, &line);
        answers[i] = Place::from(answer);
    }
}

fn counts_of(batcher: &DrawBatcher, plan: Result<FramePlan, Refusal>) -> FrameCounts
    ensures { result ≡ counts_told (batching batcher.now) plan }
{
    // By `as`, here, in the records and in places: Rust has no `From` of a usize into 64 bits.
    FrameCounts {
        draws: batcher.draws() as u64,
        batches: batcher.batches() as u64,
        staging_blocks: plan.map_or(0, |plan| plan.blocks as u64),
        metadata_buffers: plan.map_or(0, |plan| plan.metadata as u64),
    }
}

// Plans what was recorded, and writes the records of both tables, also where the plan is refused.
fn put_plan(frame: &Frame, tables: &mut Tables, outputs: &mut Outputs) -> Result<FramePlan, Refusal>
    requires table { frame.now.batcher.draws ≤ length tables.old.draws.now }
    requires tables { frame.now.batcher.batches ≤ length tables.old.batches.now }
    requires draws { frame.now.batcher.draws ≤ length outputs.old.draws.now }
    requires batches { frame.now.batcher.batches ≤ length outputs.old.batches.now }
    ensures plan { result ≡ plan_of frame.now.terms.sizes.block frame.now.terms.sizes.buffer (recording_of frame.now tables.old) }
    ensures draws { outputs.new.draws.now ≡ draws_written (recording_of frame.now tables.old) outputs.old.draws.now }
    ensures batches { outputs.new.batches.now ≡ batches_written frame.now.terms.sizes.block frame.now.terms.sizes.buffer (recording_of frame.now tables.old) outputs.old.batches.now }
    ensures counts { outputs.new.counts.now ≡ counts_told (batching frame.now.batcher) (plan_of frame.now.terms.sizes.block frame.now.terms.sizes.buffer (recording_of frame.now tables.old)) }
    ensures answers { outputs.new.answers.now ≡ outputs.old.answers.now }
    ensures memory { SameMemory outputs.new outputs.old }
{
    let plan = frame.plan(tables.batches);
    put_each(frame.draws(tables), outputs.draws);
    put_each(frame.batches(tables), outputs.batches);
    *outputs.counts = counts_of(&frame.batcher, plan);
    plan
}

// The terms that a frame is planned by, or why they are not lawful.
fn read_settings(settings: &FrameSettings) -> Result<FrameTerms, Failure>
    ensures accepted { is_ok result ≡ lawful_frame settings.now }
    ensures value { MatchResult result (λ t. settings_told t.settings t.sizes ≡ settings.now) (λ e. e ≡ settings_failure settings.now) }
{
    let device = Settings::new(settings.alignment, settings.largest_binding)?;
    let sizes = Sizes::new(settings.buffer_size, settings.block_size);
    Ok(FrameTerms {
        settings: device,
        sizes: sizes.ok_or(Failure::UnlawfulSizes)?,
    })
}

// Whether the outputs have room for what `requests` requests can give.
fn has_room(requests: usize, outputs: &Outputs) -> bool
    ensures { result ≡ room_in requests outputs.now }
{
    requests <= outputs.answers.len()
        && requests <= outputs.draws.len()
        && requests.min(MOST_BATCHES) <= outputs.batches.len()
}

// Records and plans a frame of lawful terms, and writes all of it, also where the plan is refused. Its clauses are those
// of `put_frame` once nothing is in the way; `put_frame` has them of every input. It begins as the frame of a sheet does:
// one function for both would take all that is done with answers and plan as closures.
fn put_lawful(
    terms: FrameTerms,
    sources: &[u64],
    requests: &[Request],
    outputs: &mut Outputs,
) -> Result<FramePlan, Refusal>
    requires answers { length requests.now ≤ length outputs.old.answers.now }
    requires draws { length requests.now ≤ length outputs.old.draws.now }
    requires batches { min (length requests.now) 256 ≤ length outputs.old.batches.now }
    ensures plan { result ≡ plan_of terms.sizes.block terms.sizes.buffer (frame_of (settings_told terms.settings terms.sizes) sources.now requests.now) }
    ensures answers { outputs.new.answers.now ≡ answers_written (settings_told terms.settings terms.sizes) sources.now requests.now outputs.old.answers.now }
    ensures draws { outputs.new.draws.now ≡ draws_written (frame_of (settings_told terms.settings terms.sizes) sources.now requests.now) outputs.old.draws.now }
    ensures batches { outputs.new.batches.now ≡ batches_written terms.sizes.block terms.sizes.buffer (frame_of (settings_told terms.settings terms.sizes) sources.now requests.now) outputs.old.batches.now }
    ensures counts { outputs.new.counts.now ≡ counts_told (frame_of (settings_told terms.settings terms.sizes) sources.now requests.now).batching (plan_of terms.sizes.block terms.sizes.buffer (frame_of (settings_told terms.settings terms.sizes) sources.now requests.now)) }
    ensures memory { SameMemory outputs.new outputs.old }
{
    let mut draw_table = [IndirectDraw::empty(); MOST_DRAWS];
    let mut batch_table = [DrawIndirectValidationBatch::empty(); MOST_BATCHES];
    let mut tables = Tables {
        draws: &mut draw_table,
        batches: &mut batch_table,
    };
    let mut frame = Frame::with_terms(terms);
    put_answers(&mut frame, &mut tables, sources, requests, outputs.answers);
    put_plan(&frame, &mut tables, outputs)
}

/// Records requests for indirect draws over sources of given sizes, plans the frame, and writes the answers, the
/// accepted draws, the batches and how much it all takes. Where the settings or sizes are not lawful, or an output is
/// too short, nothing is written; where the plan is refused, all of it is.
pub fn put_frame(
    settings: &FrameSettings,
    sources: &[u64],
    requests: &[Request],
    outputs: &mut Outputs,
) -> Result<(), Failure>
    ensures outcome { result ≡ frame_outcome settings.now (room_in (length requests.now) outputs.old) (plan_of settings.now.block_size settings.now.buffer_size (frame_of settings.now sources.now requests.now)) }
    ensures answers { outputs.new.answers.now ≡ (if lawful_frame settings.now && room_in (length requests.now) outputs.old then answers_written settings.now sources.now requests.now outputs.old.answers.now else outputs.old.answers.now) }
    ensures draws { outputs.new.draws.now ≡ (if lawful_frame settings.now && room_in (length requests.now) outputs.old then draws_written (frame_of settings.now sources.now requests.now) outputs.old.draws.now else outputs.old.draws.now) }
    ensures batches { outputs.new.batches.now ≡ (if lawful_frame settings.now && room_in (length requests.now) outputs.old then batches_written settings.now.block_size settings.now.buffer_size (frame_of settings.now sources.now requests.now) outputs.old.batches.now else outputs.old.batches.now) }
    ensures counts { outputs.new.counts.now ≡ (if lawful_frame settings.now && room_in (length requests.now) outputs.old then counts_told (frame_of settings.now sources.now requests.now).batching (plan_of settings.now.block_size settings.now.buffer_size (frame_of settings.now sources.now requests.now)) else outputs.old.counts.now) }
    ensures memory { SameMemory outputs.new outputs.old }
{
    let terms = read_settings(settings)?;
    if !has_room(requests.len(), outputs) {
        return Err(Failure::ShortOutput);
    }
    put_lawful(terms, sources, requests, outputs)?;
    Ok(())
}
