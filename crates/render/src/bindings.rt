ghost use Rattle.std.specs.Prelude.{◌≡◌, ◌^◌, ◌<◌};
ghost use Rattle.render.specs.Bound.{bound, unbound};
ghost use Rattle.render.specs.Requests.{format_answer};
ghost use Rattle.render.specs.Sizes.{index_bytes, size_of};

use super::steps::{MAX_VERTEX_BUFFERS, PipelineSteps};
use command::refusal::Refusal;

/// A part of a buffer, from byte `start` to before byte `end`.
#[derive(Clone, Copy)]
pub struct BufferRange {
    pub start: u32,
    pub end: u32,
}

impl BufferRange {
    /// How many bytes the range has.
    pub fn size(&self) -> u64
        ensures value { result ≡ size_of self.now }
        ensures small { result < 2 ^ 32 }
    {
        u64::from(self.end.saturating_sub(self.start))
    }
}

/// State of a single vertex buffer slot.
#[derive(Clone, Copy, Default)]
pub struct VertexSlot {
    pub range: Option<BufferRange>,
}

/// The width of an index; its number at the boundary is its bytes.
#[derive(Clone, Copy)]
pub enum IndexFormat {
    Uint16,
    Uint32,
}

/// The format of an index of so many bytes, or refusal 3 where there is none.
impl TryFrom<u64> for IndexFormat {
    type Error = Refusal;

    ghost try_from_gives = { λ bytes answer. answer ≡ format_answer bytes };

    fn try_from(bytes: u64) -> Result<IndexFormat, Refusal> {
        match bytes {
            2 => Ok(IndexFormat::Uint16),
            4 => Ok(IndexFormat::Uint32),
            _ => Err(Refusal::MalformedBinding),
        }
    }
}

impl IndexFormat {
    /// How many bytes an index takes.
    pub(crate) fn byte_size(self) -> u64
        ensures { result ≡ index_bytes self }
    {
        match self {
            IndexFormat::Uint16 => 2,
            IndexFormat::Uint32 => 4,
        }
    }
}

/// The range that an indexed draw takes its indices from.
#[derive(Clone, Copy)]
pub struct IndexBinding {
    pub range: BufferRange,
    pub format: IndexFormat,
}

/// What a render pass has bound.
#[derive(Drop)]
pub struct Bindings {
    pub(crate) slots: [VertexSlot; MAX_VERTEX_BUFFERS],
    /// Absent until a pipeline's steps were accepted; an accepted empty list is present.
    pub(crate) steps: Option<PipelineSteps>,
    pub(crate) index: Option<IndexBinding>,
}

impl Bindings {
    /// Sixteen empty slots, no steps and no index binding.
    pub fn new() -> Bindings
        ensures { bound result ≡ unbound }
    {
        Bindings {
            slots: [VertexSlot::default(); MAX_VERTEX_BUFFERS],
            steps: None,
            index: None,
        }
    }
}
