ghost use Rattle.std.specs.Prelude.{◌≡◌, ℕ, length};
ghost use Rattle.device.specs.Calls.{filled, made, make_answer, open_answer, opened, released, stored, has_word};
ghost use Rattle.device.specs.Meaning.{Meaning, Sound, source_size};
ghost use Rattle.device.specs.Plays.{played};

use super::buffers::{PoolKind, StagingBlock};
use super::commands::{BufferBarrier, BufferCopy, Command, ValidationDispatch};
use super::properties::Properties;

// Every device has these calls with these parameters: what impls repeat is the interface. `store` answers as a set's
// `insert` does, and no more is to be told.
/// The memory of a graphics device, by what it means: docs/DEVICE.md explains every sentence.
pub trait Device {
    /// What the device is: what it holds, whether a pass is open, and whether its error mark is raised.
    ghost means: { Self → Meaning };

    /// How many sources there are.
    fn source_count(&self) -> usize
        ensures { result ≡ length (means self.now).holds.sources };

    /// The bytes of a source, or nothing where there is no such source. Whatever is asked, every source has fewer
    /// than 2^32 bytes, and a word of 32 bits for each four of them.
    fn source_size(&self, source: usize) -> Option<u64>
        ensures answer { result ≡ source_size source (means self.now).holds.sources }
        ensures sound { Sound (means self.now).holds.sources };

    /// How many more pool buffers can be made, of both kinds together.
    fn makeable(&self) -> usize
        ensures { result ≡ (means self.now).holds.makeable };

    /// How many staging blocks there are.
    fn block_count(&self) -> usize
        ensures { result ≡ length (means self.now).holds.staging.blocks };

    /// How many bytes of staging are left.
    fn free_staging(&self) -> u64
        ensures { result ≡ (means self.now).holds.staging.free };

    /// What the device was made with.
    fn properties(&self) -> Properties
        ensures { result ≡ (means self.now).holds.properties };

    /// Makes a pool buffer of zeros, in the use in which its kind rests, and answers its number of making; nothing
    /// where none is left to make.
    fn make(&mut self, kind: PoolKind) -> Option<usize>
        ensures answer { result ≡ make_answer (means self.old) }
        ensures after { means self.new ≡ made kind (means self.old) };

    /// Opens a staging block of zeros; nothing where the bytes are 0, no multiple of 16, or more than are free.
    fn open(&mut self, bytes: u64) -> Option<StagingBlock>
        ensures answer { result ≡ open_answer bytes (means self.old) }
        ensures after { means self.new ≡ opened bytes (means self.old) };

    /// Writes four words at a byte offset of a block that is in use MapWrite; only raises the mark where they do not
    /// lie inside it.
    fn fill(&mut self, block: StagingBlock, offset: u64, words: [u32; 4])
        ensures { means self.new ≡ filled block offset words (means self.old) };

    /// Removes all staging blocks, whose bytes are free again.
    fn release(&mut self)
        ensures { means self.new ≡ released (means self.old) };

    /// Writes one word of a source, or says that there is none.
    fn store(&mut self, source: usize, word: usize, value: u32) -> bool
        ensures answer { result ≡ has_word source word (means self.old).holds }
        ensures after { means self.new ≡ stored source word value (means self.old) };
}

/// A device that takes commands. A command answers nothing: where it is unlawful, it only raises the error mark.
pub trait Encoder: Device {
    fn transition(&mut self, barrier: BufferBarrier)
        ensures { Self.Device.means self.new ≡ played (Command.Transition barrier) (Self.Device.means self.old) };

    fn copy(&mut self, region: BufferCopy)
        ensures { Self.Device.means self.new ≡ played (Command.Copy region) (Self.Device.means self.old) };

    fn begin(&mut self)
        ensures { Self.Device.means self.new ≡ played Command.Begin (Self.Device.means self.old) };

    fn dispatch(&mut self, batch: ValidationDispatch)
        ensures { Self.Device.means self.new ≡ played (Command.Dispatch batch) (Self.Device.means self.old) };

    fn end(&mut self)
        ensures { Self.Device.means self.new ≡ played Command.End (Self.Device.means self.old) };

    /// Has all commands carried out that were put off. The meaning says already what they do, so it stays.
    fn submit(&mut self)
        ensures { Self.Device.means self.new ≡ Self.Device.means self.old };
}
