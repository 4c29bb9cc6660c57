ghost use Rattle.std.specs.Prelude.{◌≡◌, ℕ, ◌≤◌, length, take, None};
ghost use Rattle.batcher.specs.Judged.{frame_terms};
ghost use Rattle.batcher.specs.View.{batching};
ghost use Rattle.places.specs.Counts.{counts};
ghost use Rattle.plan.specs.Planned.{batches_after, plan_answer};
ghost use Rattle.sheet.specs.Frames.{answer_of, recorded, request_of};
ghost use Rattle.sheet.specs.View.{recording_of};

use batcher::batcher::DrawBatcher;
use batcher::records::{DrawIndirectValidationBatch, DrawRequest, IndirectDraw};
use batcher::tables::Tables;
use batcher::terms::FrameTerms;
use command::refusal::Refusal;
use command::settings::Settings;
use command::sizes::Sizes;
use page::line::DrawLine;
use places::counted::Counted;
use places::current::CurrentEntry;
use plan::frame::{FramePlan, plan};

/// So many buffers of each kind a frame may take.
const MOST_BUFFERS: usize = 256;

/// A frame that is recorded without a device: its buffers are only counted.
// Its tables are lent to each call, so that a frame can be copied.
#[derive(Clone, Copy)]
pub struct Frame {
    pub terms: FrameTerms,
    pub batcher: DrawBatcher,
    pub destinations: Counted,
}

// What a line asks for, over the sources of its sheet.
fn request_of(sources: &[u64], line: &DrawLine) -> DrawRequest
    ensures { result ≡ request_of sources.now line.now }
{
    DrawRequest {
        kind: line.kind,
        source: line.source,
        // By `as`: a usize has 64 bits here, so that `try_from` would only add a step.
        size: sources.get(line.source as usize).copied(),
        offset: line.offset,
        limit: line.first_limit,
        instances: line.instance_limit,
    }
}

// What stands in a table after so many records; all of it where it is shorter.
fn recorded<T: Copy>(table: &[T], count: usize) -> &[T]
    ensures { result.now ≡ take count table.now }
{
    table.get(..count).unwrap_or(table)
}

impl Frame {
    /// A frame with nothing recorded, of the sizes that wgpu-core uses.
    pub fn new(settings: Settings) -> Frame
        ensures settings { result.terms.settings ≡ settings }
        ensures sizes { (result.terms.sizes.buffer ≡ 1048560) × (result.terms.sizes.block ≡ 67108864) }
        ensures batcher { batching result.batcher ≡ record { draws = 0; batches = 0; current = None } }
        ensures destinations { counts result.destinations.held result.destinations.left ≡ counts 0 256 }
    {
        let sizes = Sizes::base();
        Frame::with_terms(FrameTerms { settings, sizes })
    }

    /// A frame with nothing recorded, of other terms.
    pub fn with_terms(terms: FrameTerms) -> Frame
        ensures terms { result.terms ≡ terms }
        ensures batcher { batching result.batcher ≡ record { draws = 0; batches = 0; current = None } }
        ensures destinations { counts result.destinations.held result.destinations.left ≡ counts 0 256 }
    {
        Frame {
            terms,
            batcher: DrawBatcher::new(),
            destinations: Counted::new(MOST_BUFFERS),
        }
    }

    /// Records the draw of a line, and answers its place or why it is refused.
    pub fn record(
        &mut self,
        tables: &mut Tables,
        sources: &[u64],
        line: &DrawLine,
    ) -> Result<CurrentEntry, Refusal>
        ensures answer { result ≡ answer_of (frame_terms self.old.terms) sources.now (recording_of self.old tables.old) line.now }
        ensures after { recording_of self.new tables.new ≡ recorded (frame_terms self.old.terms) sources.now (recording_of self.old tables.old) line.now }
        ensures terms { self.new.terms ≡ self.old.terms }
        ensures same_draws { tables.new.draws.ghost_name ≡ tables.old.draws.ghost_name }
        ensures same_batches { tables.new.batches.ghost_name ≡ tables.old.batches.ghost_name }
    {
        let request = request_of(sources, line);
        let terms = self.terms;
        self.batcher
            .add(&mut self.destinations, tables, &terms, &request)
    }

    /// Plans what was recorded, over metadata buffers that are only counted.
    pub fn plan(&self, batches: &mut [DrawIndirectValidationBatch]) -> Result<FramePlan, Refusal>
        ensures answer { result ≡ plan_answer self.now.terms.sizes.block self.now.terms.sizes.buffer self.now.batcher.batches batches.old 256 }
        ensures batches { batches.new ≡ batches_after self.now.terms.sizes.block self.now.terms.sizes.buffer self.now.batcher.batches result batches.old }
        ensures length { length batches.new ≡ length batches.old }
    {
        let mut metadata = Counted::new(MOST_BUFFERS);
        plan(&self.batcher, &mut metadata, batches, &self.terms.sizes)
    }

    /// The draws that were accepted, in the tables that they were recorded in.
    pub fn draws<'a>(&self, tables: &'a Tables) -> &'a [IndirectDraw]
        ensures { result.now ≡ take self.now.batcher.draws tables.now.draws.now }
    {
        recorded(tables.draws, self.batcher.draws())
    }

    /// The batches that they form.
    pub fn batches<'a>(&self, tables: &'a Tables) -> &'a [DrawIndirectValidationBatch]
        ensures { result.now ≡ take self.now.batcher.batches tables.now.batches.now }
    {
        recorded(tables.batches, self.batcher.batches())
    }
}
