ghost use Rattle.std.specs.Prelude.{◌≡◌, ℕ, ◌%◌, ◌<◌, ◌≤◌, length, MatchOption};
ghost use Rattle.device.specs.Calls.{emptied};
ghost use Rattle.device.specs.Uses.{use_from};
ghost use Rattle.direct_memory.specs.Layouts.{end_of};
ghost use Rattle.direct_memory.specs.Held.{held, shape};
ghost use Rattle.direct_memory.specs.Lies.{BlockLies, begins_at, book_word};
ghost use Rattle.direct_memory.specs.Views.{books_at};

use super::Memory;
use crate::layout::BlockBook;
use crate::words::Region;
use device::buffers::StagingBlock;

impl Memory {
    /// How many staging blocks there are.
    pub fn block_count(&self) -> usize
        ensures { result ≡ length (held self.now).staging.blocks }
    {
        self.numbers.blocks
    }

    /// How many bytes of staging are left.
    pub fn free_staging(&self) -> u64
        ensures { result ≡ (held self.now).staging.free }
    {
        // Rust has no `From` of a usize into 64 bits.
        (self.numbers.staging_size - self.numbers.used) as u64
    }

    /// Where the bookkeeping of blocks begins.
    pub(super) fn books_start(&self) -> usize
        ensures { result ≡ books_at (shape self.now.numbers) }
    {
        self.numbers.staging_start + self.numbers.staging_size / 4
    }

    /// What the bookkeeping word of a block says.
    pub(super) fn book(&self, number: usize) -> BlockBook
        requires { number < self.now.numbers.blocks }
        ensures end { result.end ≡ end_of (book_word self.now number) }
        ensures state { result.state ≡ use_from (book_word self.now number % 16) }
    {
        BlockBook::from(self.words[self.books_start() + number])
    }

    /// The byte of staging at which a block begins: the end of the one before it.
    fn block_start(&self, number: usize) -> usize
        requires { number < self.now.numbers.blocks }
        ensures { result ≡ begins_at self.now number }
    {
        if number == 0 {
            return 0;
        }
        self.book(number - 1).end
    }

    /// Where a block lies, or nothing where there is no such block.
    pub(super) fn block_region(&self, block: StagingBlock) -> Option<Region>
        ensures { MatchOption result (self.now.numbers.blocks ≤ block.number) (BlockLies self.now block.number) }
    {
        let number = block.number;
        if number >= self.numbers.blocks {
            return None;
        }
        let from = self.block_start(number);
        let end = self.book(number).end;
        Some(Region {
            start: self.numbers.staging_start + from / 4,
            size: (end - from) / 4,
        })
    }

    /// Removes all blocks.
    pub fn release(&mut self)
        ensures { held self.new ≡ emptied (held self.old) }
    {
        self.numbers.blocks = 0;
        self.numbers.used = 0;
    }
}
