ghost use Rattle.pool_trial.specs.Recording.{recording, destination_answer, destination_after, Inside};
ghost use Rattle.std.specs.Prelude.{◌≡◌};

use super::lent::Lent;
use super::maker::Maker;
use super::recorder::Recorder;
use command::refusal::Refusal;
use device::buffers::PoolKind;
use places::current::CurrentEntry;
use places::subrange::get_subrange_impl;

impl<D: Maker> Recorder<D> {
    /// The place of a draw's arguments. The current place is in a member after it if it was before.
    pub fn destination_place(
        &mut self,
        size: u64,
        buffer_size: u64,
    ) -> Result<CurrentEntry, Refusal>
        ensures answer { result ≡ destination_answer size buffer_size (recording D.Maker.means self.old) }
        ensures after { recording D.Maker.means self.new ≡ destination_after size buffer_size (recording D.Maker.means self.old) }
        ensures inside { Inside (recording D.Maker.means self.old) → Inside (recording D.Maker.means self.new) }
    {
        let mut supply = Lent {
            tables: &mut self.destination,
            device: &mut self.device,
            kind: PoolKind::Destination,
        };
        get_subrange_impl(
            &mut supply,
            &mut self.current_destination,
            size,
            buffer_size,
        )
    }
}
