ghost use Rattle.std.specs.Prelude.{◌≡◌, ◌≤◌, ◌++◌, map, length, drop};
ghost use Rattle.frame_exports.specs.Records.{batch_told, line_of, record_told};

use batcher::records::{DrawIndirectValidationBatch, IndirectDraw};
use page::line::DrawLine;

// The three records are what C sees: kinds and counts are numbers there, as include/jorumspit.h has them.

/// An indirect draw that is asked for.
#[repr(C)]
#[derive(Clone, Copy)]
pub struct Request {
    /// 0 for vertices in order, 1 for vertices by an index buffer.
    pub kind: u64,
    /// The number of the source that has the draw's arguments.
    pub source: u64,
    /// Their byte in it.
    pub offset: u64,
    /// How many vertices are bound, or indices for an indexed draw.
    pub limit: u64,
    pub instance_limit: u64,
}

/// An accepted draw: its kind and place, its batch with its number in it, and its entry.
#[repr(C)]
#[derive(Clone, Copy)]
pub struct DrawRecord {
    pub kind: u64,
    pub index: u64,
    pub offset: u64,
    pub batch: u64,
    pub rank: u64,
    pub src_offset: u32,
    pub dst_offset: u32,
    pub vertex_or_index_limit: u32,
    pub instance_limit: u32,
}

/// A batch: its key, how many entries it has, and where the plan puts them.
#[repr(C)]
#[derive(Clone, Copy)]
pub struct BatchRecord {
    pub source: u64,
    pub window: u64,
    pub destination: u64,
    pub count: u64,
    pub staging_block: u64,
    pub staging_offset: u64,
    pub metadata_buffer: u64,
    pub metadata_offset: u64,
}

/// A request as a line of a sheet says it.
impl From<Request> for DrawLine {
    ghost from_gives = { λ request line. line ≡ line_of request };

    fn from(request: Request) -> DrawLine {
        DrawLine {
            kind: request.kind,
            source: request.source,
            offset: request.offset,
            first_limit: request.limit,
            instance_limit: request.instance_limit,
        }
    }
}

impl From<IndirectDraw> for DrawRecord {
    ghost from_gives = { λ draw told. told ≡ record_told draw };

    fn from(draw: IndirectDraw) -> DrawRecord {
        DrawRecord {
            kind: u64::from(draw.family),
            index: draw.place.index as u64,
            offset: draw.place.offset,
            batch: draw.batch as u64,
            rank: u64::from(draw.rank),
            src_offset: draw.entry.src_offset,
            dst_offset: draw.entry.dst_offset,
            vertex_or_index_limit: draw.entry.vertex_or_index_limit,
            instance_limit: draw.entry.instance_limit,
        }
    }
}

impl From<DrawIndirectValidationBatch> for BatchRecord {
    ghost from_gives = { λ batch told. told ≡ batch_told batch };

    fn from(batch: DrawIndirectValidationBatch) -> BatchRecord {
        BatchRecord {
            source: batch.key.source,
            window: batch.key.window,
            destination: batch.key.destination as u64,
            count: u64::from(batch.count),
            staging_block: batch.staging.index as u64,
            staging_offset: batch.staging.offset,
            metadata_buffer: batch.metadata.index as u64,
            metadata_offset: batch.metadata.offset,
        }
    }
}

/// Writes what each item converts into, in their order, and leaves what follows.
pub(crate) fn put_each<T: Copy, R: From<T> + Copy>(items: &[T], records: &mut [R])
    ghost told: { T → R }
    requires room { length items.now ≤ length records.old }
    requires converts { (item : T) (made : R) → R.from_gives item made → made ≡ told item }
    ensures { records.new ≡ map told items.now ++ drop (length items.now) records.old }
{
    // By index: after a `zip` with `iter_mut` a proof does not know what was written.
    for (i, item) in items.iter().enumerate() {
        records[i] = R::from(*item);
    }
}
