ghost use Rattle.std.specs.Prelude.{◌≡◌, ℕ, ◌+◌, ◌*◌, ◌<◌, length, if◌then◌else◌, Some, None};
ghost use Rattle.direct_memory.specs.Held.{held, shape};
ghost use Rattle.direct_memory.specs.Regions.{Inside};
ghost use Rattle.direct_memory.specs.Views.{buffer_words, pool_at};
ghost use Rattle.device.specs.Calls.{can_make, grown};

use super::Memory;
use crate::layout::PoolSlot;
use crate::words::Region;
use device::buffers::PoolKind;

impl Memory {
    /// How many more pool buffers can be made.
    pub fn makeable(&self) -> usize
        ensures { result ≡ (held self.now).makeable }
    {
        self.numbers.most - self.numbers.pool.len()
    }

    /// Where the pool begins.
    fn pool_start(&self) -> usize
        ensures { result ≡ pool_at (shape self.now.numbers) }
    {
        let size = self.numbers.staging_size;
        self.numbers.staging_start + size / 4 + size / 16
    }

    /// Where the buffer of a number lies, be it made or not.
    fn buffer_region(&self, number: usize) -> Region
        requires { number < self.now.numbers.most }
        ensures value { result ≡ record { start = pool_at (shape self.now.numbers) + number * buffer_words (shape self.now.numbers); size = buffer_words (shape self.now.numbers) } }
        ensures room { Inside result self.now.words.items }
    {
        // By `as`: a usize has 64 bits here, and `try_from` would add a failure that there is not.
        let size = (self.numbers.properties.buffer_size / 4) as usize;
        Region {
            start: self.pool_start() + number * size,
            size,
        }
    }

    /// Makes a pool buffer of zeros, or nothing where none is left to make.
    pub fn make(&mut self, kind: PoolKind) -> Option<usize>
        ensures answer { result ≡ (if can_make (held self.old) then Some (length (held self.old).pool) else None) }
        ensures after { held self.new ≡ (if can_make (held self.old) then grown kind (held self.old) else held self.old) }
    {
        let made = self.numbers.pool.len();
        if made == self.numbers.most {
            return None;
        }
        self.buffer_region(made).zero(&mut self.words);
        self.numbers.pool.push(PoolSlot {
            kind,
            state: kind.resting_use(),
        });
        Some(made)
    }
}
