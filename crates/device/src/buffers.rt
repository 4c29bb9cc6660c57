ghost use Rattle.device.specs.Uses.{use_code, use_from, same_use, resting_use};
ghost use Rattle.std.specs.Prelude.{◌≡◌};

/// What a buffer can be used for until a transition gives it another use.
#[derive(Clone, Copy, Default, PartialEq, Eq)]
pub enum BufferUses {
    /// The host fills it.
    #[default]
    MapWrite,
    /// Copies read it.
    CopySrc,
    /// Copies write it.
    CopyDst,
    /// Dispatches read it.
    StorageReadOnly,
    /// Dispatches write it.
    StorageReadWrite,
    /// Draws read their arguments from it.
    Indirect,
}

impl BufferUses {
    /// Whether the two are one use.
    pub fn is(self, other: BufferUses) -> bool
        ensures { result ≡ same_use self other }
    {
        self == other
    }
}

/// The number by which a word keeps a use, from 0 on.
impl From<BufferUses> for u32 {
    ghost from_gives = { λ kept code. code ≡ use_code kept };

    fn from(kept: BufferUses) -> u32 {
        match kept {
            BufferUses::MapWrite => 0,
            BufferUses::CopySrc => 1,
            BufferUses::CopyDst => 2,
            BufferUses::StorageReadOnly => 3,
            BufferUses::StorageReadWrite => 4,
            BufferUses::Indirect => 5,
        }
    }
}

/// The use that a word keeps by its number. A word may hold any number: one that names no use is read as the last.
impl From<u32> for BufferUses {
    ghost from_gives = { λ code kept. kept ≡ use_from code };

    fn from(code: u32) -> BufferUses {
        match code {
            0 => BufferUses::MapWrite,
            1 => BufferUses::CopySrc,
            2 => BufferUses::CopyDst,
            3 => BufferUses::StorageReadOnly,
            4 => BufferUses::StorageReadWrite,
            _ => BufferUses::Indirect,
        }
    }
}

/// What a pool buffer is for.
#[derive(Clone, Copy, Default, PartialEq, Eq)]
pub enum PoolKind {
    /// The checked arguments of draws.
    #[default]
    Destination,
    /// The entries that a dispatch reads.
    Metadata,
}

impl PoolKind {
    /// The use in which a pool buffer is made, and which it has between runs.
    pub fn resting_use(self) -> BufferUses
        ensures { result ≡ resting_use self }
    {
        match self {
            PoolKind::Destination => BufferUses::Indirect,
            PoolKind::Metadata => BufferUses::StorageReadOnly,
        }
    }
}

/// The name of a staging block: blocks are numbered from 0 in the order in which they were opened.
#[derive(Clone, Copy, PartialEq, Eq)]
pub struct StagingBlock {
    pub number: usize,
}

/// A buffer whose use can be changed: a pool buffer by its number of making, or a staging block.
#[derive(Clone, Copy, PartialEq, Eq)]
pub enum BufferRef {
    Pool(usize),
    Staging(StagingBlock),
}
