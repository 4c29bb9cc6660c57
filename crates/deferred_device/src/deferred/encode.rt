#![tactic(auto, using(crate::proofs::Queueing::same_answers))]

ghost use Rattle.deferred_device.specs.Queue.{meant, queue};
ghost use Rattle.device.specs.Meaning.{Meaning};

use super::Deferred;
use device::buffers::{PoolKind, StagingBlock};
use device::commands::{BufferBarrier, BufferCopy, Command, ValidationDispatch};
use device::interface::{Device, Encoder};
use device::properties::Properties;

// Questions go to the device below: no command changes their answers. All other calls play what is held first. Each is
// passed on by hand, as in the logged device: only a macro could write such an impl, and the gate allows none.
impl<E: Encoder> Device for Deferred<E> {
    ghost means = { λ s. meant (queue s.held (E.Device.means s.below)) };

    fn source_count(&self) -> usize {
        self.below.source_count()
    }

    fn source_size(&self, source: usize) -> Option<u64> {
        self.below.source_size(source)
    }

    fn makeable(&self) -> usize {
        self.below.makeable()
    }

    fn block_count(&self) -> usize {
        self.below.block_count()
    }

    fn free_staging(&self) -> u64 {
        self.below.free_staging()
    }

    fn properties(&self) -> Properties {
        self.below.properties()
    }

    fn make(&mut self, kind: PoolKind) -> Option<usize> {
        self.flush();
        self.below.make(kind)
    }

    fn open(&mut self, bytes: u64) -> Option<StagingBlock> {
        self.flush();
        self.below.open(bytes)
    }

    fn fill(&mut self, block: StagingBlock, offset: u64, words: [u32; 4]) {
        self.flush();
        self.below.fill(block, offset, words);
    }

    fn release(&mut self) {
        self.flush();
        self.below.release();
    }

    fn store(&mut self, source: usize, word: usize, value: u32) -> bool {
        self.flush();
        self.below.store(source, word, value)
    }
}

impl<E: Encoder> Encoder for Deferred<E> {
    fn transition(&mut self, barrier: BufferBarrier) {
        self.enqueue(Command::Transition(barrier));
    }

    fn copy(&mut self, region: BufferCopy) {
        self.enqueue(Command::Copy(region));
    }

    fn begin(&mut self) {
        self.enqueue(Command::Begin);
    }

    fn dispatch(&mut self, batch: ValidationDispatch) {
        self.enqueue(Command::Dispatch(batch));
    }

    fn end(&mut self) {
        self.enqueue(Command::End);
    }

    fn submit(&mut self) {
        self.flush();
        self.below.submit();
    }
}
