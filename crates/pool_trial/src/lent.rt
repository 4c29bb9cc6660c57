ghost use Rattle.std.specs.Prelude.{◌≡◌, ℕ, ◌+◌, List, [], ◌∷◌};
ghost use Rattle.pool_trial.specs.Lending.{Lending, lend, held_of, more_of, lending};

use super::maker::Maker;
use super::tables::Tables;
use command::refusal::Refusal;
use device::buffers::PoolKind;
use places::supply::Supply;

/// One kind's tables and the device, lent for a call: a supply.
#[derive(Drop)]
pub struct Lent<'a, D> {
    pub tables: &'a mut Tables,
    pub device: &'a mut D,
    pub kind: PoolKind,
}

impl<D: Maker> Supply for Lent<'_, D> {
    ghost View = { Lending };

    ghost view = { λ s. lend s.kind s.tables.now (D.Maker.means s.device.now) };

    ghost held = { held_of };

    ghost more = { more_of };

    ghost ensured = { lending };

    ghost names = { λ s. s.tables.ghost_name ∷ s.device.ghost_name ∷ [] };

    fn capacity(&self) -> usize {
        let stocked = self.tables.members.len() + self.tables.free.len();
        self.device.makeable().saturating_add(stocked).min(256)
    }

    /// A new member is the top of the free stack, or else one that the device makes.
    fn ensure(&mut self, index: usize) -> Result<(), Refusal> {
        let count = self.tables.members.len();
        if index < count {
            return Ok(());
        }
        if index > count || count == 256 {
            return Err(Refusal::NoBuffer);
        }
        // no `or_else`, whose closure would change the device: a proof knows nothing of the device after it
        let found = match self.tables.free.pop() {
            None => self.device.make(self.kind),
            top => top,
        };
        self.tables.members.push(found.ok_or(Refusal::NoBuffer)?)
    }
}
