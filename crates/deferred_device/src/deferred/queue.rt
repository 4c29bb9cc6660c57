ghost use Rattle.std.specs.Prelude.{◌≡◌, [], length};
ghost use Rattle.deferred_device.specs.Queue.{Queue, flushed, meant, queue, queued};
ghost use Rattle.device.specs.Meaning.{Meaning, New};
ghost use Rattle.device.specs.Plays.{played};

use super::Deferred;
use crate::commands::Commands;
use device::commands::Command;
use device::interface::Encoder;
use device::play::play_all;

impl<E: Encoder> Deferred<E> {
    /// Over `below`, with nothing held.
    pub fn new(below: E) -> Deferred<E>
        ensures value { queue result.held (E.Device.means result.below) ≡ record { held = []; below = E.Device.means below } }
        ensures fresh { New (E.Device.means below) → New (meant (queue result.held (E.Device.means result.below))) }
    {
        Deferred {
            below,
            held: Commands::new(),
        }
    }

    /// How many commands are held.
    pub fn held(&self) -> usize
        ensures { result ≡ length (queue self.now.held (E.Device.means self.now.below)).held }
    {
        self.held.len()
    }

    /// Plays what is held, and gives the encoder below back.
    pub fn finish(mut self) -> E
        ensures { E.Device.means result ≡ meant (queue self.held (E.Device.means self.below)) }
    {
        self.flush();
        let Deferred { below, held: _ } = self;
        below
    }

    /// Plays what is held.
    pub(super) fn flush(&mut self)
        ensures { queue self.new.held (E.Device.means self.new.below) ≡ flushed (queue self.old.held (E.Device.means self.old.below)) }
    {
        play_all(&mut self.below, self.held.as_slice());
        self.held.clear();
    }

    /// Holds one more command, and plays them all where they are 256.
    #[tactic(auto, using(crate::proofs::Queueing::play_push))]
    pub(super) fn enqueue(&mut self, command: Command)
        ensures queue { queue self.new.held (E.Device.means self.new.below) ≡ queued command (queue self.old.held (E.Device.means self.old.below)) }
        ensures after { meant (queue self.new.held (E.Device.means self.new.below)) ≡ played command (meant (queue self.old.held (E.Device.means self.old.below))) }
    {
        self.held.push(command);
        if self.held.is_full() {
            // Not by `flush`, which is for a queue with room.
            play_all(&mut self.below, self.held.as_slice());
            self.held.clear();
        }
    }
}
