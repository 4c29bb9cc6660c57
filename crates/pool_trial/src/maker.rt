ghost use Rattle.pool_trial.specs.Making.{Making, makes, making};
ghost use Rattle.std.specs.Prelude.{◌≡◌};

use device::buffers::PoolKind;

// Not `device::interface::Device`, of which a pool needs one call: the trial's meaning of that call is two lines.
/// A device with one call, and a question that tells how often it will be met.
pub trait Maker {
    ghost means: { Self → Making };

    /// How many more buffers the device can make.
    fn makeable(&self) -> usize
        ensures { result ≡ (means self.now).makeable };

    /// The number of a new buffer, or nothing where the device can make no more.
    fn make(&mut self, kind: PoolKind) -> Option<usize>
        ensures answer { result ≡ makes (means self.old) }
        ensures after { means self.new ≡ making kind (means self.old) };
}
