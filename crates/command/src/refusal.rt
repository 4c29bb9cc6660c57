ghost use Rattle.command.specs.Refusals.{report_of, number_of};
ghost use Rattle.std.specs.Prelude.{◌≡◌};

/// What was asked for against what the bound ranges carry.
#[derive(Clone, Copy)]
pub struct Beyond {
    /// One past the last vertex, index or instance that the draw names.
    pub last: u64,
    /// The largest number that would have been accepted.
    pub limit: u64,
}

/// Why a call is turned down; docs/REFUSALS.md explains each. A refused call changes nothing.
#[derive(Clone, Copy)]
pub enum Refusal {
    /// 1: the alignment or the largest binding is not one that windows can be cut by.
    UnlawfulSettings,
    /// 2: a slot above 15, or more than 16 steps.
    NoSuchSlot,
    /// 3: a range that ends before it starts, an end or a stride above 4,294,967,295, an unknown step mode or index size.
    MalformedBinding,
    /// 4: a draw before any steps were set.
    MissingPipeline,
    /// 5: a step reads from a slot that is empty.
    MissingVertexBuffer,
    /// 6: an indexed draw without an index binding.
    MissingIndexBuffer,
    /// 7: a kind that is neither 0 nor 1.
    UnknownKind,
    /// 8: a direct draw past the vertices that are bound.
    VertexBeyondLimit(Beyond, u32),
    /// 9: a direct indexed draw past the indices that are bound.
    IndexBeyondLimit(Beyond),
    /// 10: a direct draw past the instances that are bound.
    InstanceBeyondLimit(Beyond, u32),
    /// 11: no such source, or no such word in it.
    NoSuchSource,
    /// 12: an offset that is not a multiple of four.
    UnalignedIndirectBufferOffset,
    /// 13: arguments that reach past the end of their source.
    IndirectBufferOverrun,
    /// 14: a table is full, or shorter than what was recorded in it.
    TableFull,
    /// 15: a pool buffer is needed, and none can be had.
    NoBuffer,
    /// 16: the staging of an earlier run is still held.
    StagingHeld,
    /// 17: the staging that is left is less than the run needs.
    StagingShort,
    /// 18: the words handed to a direct device cannot hold what it is asked to hold.
    DeviceMemory,
}

/// A refusal as numbers: which it is, and its values where it has any. By these a host in C is told it.
#[derive(Clone, Copy)]
pub struct Report {
    pub number: u8,
    pub beyond: Option<Beyond>,
    pub slot: Option<u32>,
}

impl Refusal {
    /// The number by which callers know the refusal. A method and no `From`: it is asked of a refusal that stays.
    pub fn number(&self) -> u8
        ensures { result ≡ number_of self.now }
    {
        match self {
            Refusal::UnlawfulSettings => 1,
            Refusal::NoSuchSlot => 2,
            Refusal::MalformedBinding => 3,
            Refusal::MissingPipeline => 4,
            Refusal::MissingVertexBuffer => 5,
            Refusal::MissingIndexBuffer => 6,
            Refusal::UnknownKind => 7,
            Refusal::VertexBeyondLimit(_, _) => 8,
            Refusal::IndexBeyondLimit(_) => 9,
            Refusal::InstanceBeyondLimit(_, _) => 10,
            Refusal::NoSuchSource => 11,
            Refusal::UnalignedIndirectBufferOffset => 12,
            Refusal::IndirectBufferOverrun => 13,
            Refusal::TableFull => 14,
            Refusal::NoBuffer => 15,
            Refusal::StagingHeld => 16,
            Refusal::StagingShort => 17,
            Refusal::DeviceMemory => 18,
        }
    }

    /// The number with all values: refusals 8 to 10 say how far the draw went and what the limit was,
    /// 8 and 10 also which slot set that limit.
    pub fn report(&self) -> Report
        ensures { result ≡ report_of self.now }
    {
        let (beyond, slot) = match self {
            Refusal::VertexBeyondLimit(beyond, slot) | Refusal::InstanceBeyondLimit(beyond, slot) =>
                (Some(*beyond), Some(*slot)),
            Refusal::IndexBeyondLimit(beyond) => (Some(*beyond), None),
            _ => (None, None),
        };
        Report {
            number: self.number(),
            beyond,
            slot,
        }
    }
}
