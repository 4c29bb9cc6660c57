ghost use Rattle.std.specs.Prelude.{◌≡◌, ℕ, []};
ghost use Rattle.device.specs.Meaning.{Meaning};
ghost use Rattle.device.specs.Plays.{played};
ghost use Rattle.logged_device.specs.Log.{Log, log, logged};

use super::Logged;
use arrayvec::ArrayVec;
use device::commands::Command;
use device::interface::Encoder;
use device::play::play;

impl<E: Encoder> Logged<E> {
    /// Over `below`, with an empty log.
    pub fn new(below: E) -> Logged<E>
        ensures log { log result.log.items result.count ≡ record { kept = []; count = 0 } }
        ensures below { E.Device.means result.below ≡ E.Device.means below }
    {
        Logged {
            below,
            log: ArrayVec::new(),
            count: 0,
        }
    }

    /// The commands that were kept, the oldest first.
    pub fn commands(&self) -> &[Command]
        ensures { result.now ≡ (log self.now.log.items self.now.count).kept }
    {
        &self.log
    }

    /// How many commands were passed on, whether they were kept or not; at most 18,446,744,073,709,551,615.
    pub fn count(&self) -> u64
        ensures { result ≡ (log self.now.log.items self.now.count).count }
    {
        self.count
    }

    /// Gives the encoder below back.
    pub fn finish(self) -> E
        ensures { result ≡ self.below }
    {
        let Logged {
            below,
            log: _,
            count: _,
        } = self;
        below
    }

    /// Notes a command and passes it on.
    pub(super) fn pass(&mut self, command: Command)
        ensures log { log self.new.log.items self.new.count ≡ logged command (log self.old.log.items self.old.count) }
        ensures after { E.Device.means self.new.below ≡ played command (E.Device.means self.old.below) }
    {
        // Where the log is full, the command is only counted.
        let _ = self.log.try_push(command);
        self.count = self.count.saturating_add(1);
        play(&mut self.below, command);
    }
}
