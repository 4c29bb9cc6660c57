ghost use Rattle.batcher.specs.Records.{no_batch, no_draw};
ghost use Rattle.std.specs.Prelude.{◌≡◌};

use command::family::DrawCommandFamily;
use entry::metadata::MetadataEntry;
use places::current::CurrentEntry;

/// What the draws of one batch have in common: they are checked by one dispatch.
#[derive(Clone, Copy, Default, PartialEq, Eq)]
pub struct BatchKey {
    /// The number of the source.
    pub source: u64,
    /// Where the window over the source begins.
    pub window: u64,
    /// The index of the destination buffer.
    pub destination: usize,
}

/// One batch: its key, how many entries it has, and where a plan puts them.
#[derive(Clone, Copy, Default)]
pub struct DrawIndirectValidationBatch {
    pub key: BatchKey,
    pub count: u32,
    /// Staging block and byte offset, set by the plan.
    pub staging: CurrentEntry,
    /// Metadata buffer and byte offset, set by the plan.
    pub metadata: CurrentEntry,
}

/// One recorded draw.
#[derive(Clone, Copy, Default)]
pub struct IndirectDraw {
    pub family: DrawCommandFamily,
    /// Destination buffer and byte offset at which the checked arguments will stand.
    pub place: CurrentEntry,
    pub entry: MetadataEntry,
    /// The number of its batch, and how many entries of that batch come before it.
    pub batch: usize,
    pub rank: u32,
}

/// A request for an indirect draw, with the limits of what is bound, from a sender who is not trusted.
#[derive(Clone, Copy)]
pub struct DrawRequest {
    // A number, since any may be asked for.
    pub kind: u64,
    pub source: u64,
    /// The size of that source in bytes, or nothing where there is no such source.
    pub size: Option<u64>,
    pub offset: u64,
    pub limit: u64,
    pub instances: u64,
}

impl DrawIndirectValidationBatch {
    /// A record to fill a table with, before anything is recorded in its place.
    // Kept beside `default`, whose derived contract goes field by field: this one names the record that stands there.
    pub fn empty() -> DrawIndirectValidationBatch
        ensures { result ≡ no_batch }
    {
        DrawIndirectValidationBatch::default()
    }
}

impl IndirectDraw {
    /// A record to fill a table with, before anything is recorded in its place.
    // Kept beside `default` for the same reason.
    pub fn empty() -> IndirectDraw
        ensures { result ≡ no_draw }
    {
        IndirectDraw::default()
    }
}
