ghost use Rattle.direct_memory.specs.Layouts.{end_of};
ghost use Rattle.device.specs.Uses.{use_from};
ghost use Rattle.std.specs.Prelude.{◌≡◌, ◌%◌};

use device::buffers::{BufferUses, PoolKind};

/// Where a source lies: its first word, and its bytes.
#[derive(Clone, Copy, Default, PartialEq, Eq)]
pub struct SourcePlace {
    pub start: usize,
    pub size: u32,
}

/// What a pool buffer is for, and the use that it is in.
#[derive(Clone, Copy, Default, PartialEq, Eq)]
pub struct PoolSlot {
    pub kind: PoolKind,
    pub state: BufferUses,
}

/// What the bookkeeping word of a staging block says.
#[derive(Clone, Copy, PartialEq, Eq)]
pub(crate) struct BlockBook {
    /// The byte of staging at which the block ends.
    pub(crate) end: usize,
    pub(crate) state: BufferUses,
}

/// The low four bits are the use: blocks end at multiples of 16.
impl From<u32> for BlockBook {
    ghost from_gives = { λ word book. (book.end ≡ end_of word) × (book.state ≡ use_from (word % 16)) };

    fn from(word: u32) -> BlockBook {
        BlockBook {
            // By `as`: Rust has no `From` of 32 bits into a usize, and `try_from` would add a failure that there is not.
            end: (word / 16 * 16) as usize,
            state: BufferUses::from(word % 16),
        }
    }
}
