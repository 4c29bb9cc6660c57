ghost use Rattle.device.specs.Meaning.{Meaning};

use super::Logged;
use device::buffers::{PoolKind, StagingBlock};
use device::commands::{BufferBarrier, BufferCopy, Command, ValidationDispatch};
use device::interface::{Device, Encoder};
use device::properties::Properties;

// All but commands goes to the device below as it is. Each call is passed on by hand, as in the deferred device: only a
// macro could write such an impl, and the gate allows none.
impl<E: Encoder> Device for Logged<E> {
    ghost means = { λ s. E.Device.means s.below };

    fn source_count(&self) -> usize {
        self.below.source_count()
    }

    fn source_size(&self, source: usize) -> Option<u64> {
        self.below.source_size(source)
    }

    fn makeable(&self) -> usize {
        self.below.makeable()
    }

    fn block_count(&self) -> usize {
        self.below.block_count()
    }

    fn free_staging(&self) -> u64 {
        self.below.free_staging()
    }

    fn properties(&self) -> Properties {
        self.below.properties()
    }

    fn make(&mut self, kind: PoolKind) -> Option<usize> {
        self.below.make(kind)
    }

    fn open(&mut self, bytes: u64) -> Option<StagingBlock> {
        self.below.open(bytes)
    }

    fn fill(&mut self, block: StagingBlock, offset: u64, words: [u32; 4]) {
        self.below.fill(block, offset, words);
    }

    fn release(&mut self) {
        self.below.release();
    }

    fn store(&mut self, source: usize, word: usize, value: u32) -> bool {
        self.below.store(source, word, value)
    }
}

impl<E: Encoder> Encoder for Logged<E> {
    fn transition(&mut self, barrier: BufferBarrier) {
        self.pass(Command::Transition(barrier));
    }

    fn copy(&mut self, region: BufferCopy) {
        self.pass(Command::Copy(region));
    }

    fn begin(&mut self) {
        self.pass(Command::Begin);
    }

    fn dispatch(&mut self, batch: ValidationDispatch) {
        self.pass(Command::Dispatch(batch));
    }

    fn end(&mut self) {
        self.pass(Command::End);
    }

    fn submit(&mut self) {
        self.below.submit();
    }
}
