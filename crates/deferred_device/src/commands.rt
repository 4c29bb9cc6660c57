ghost use Rattle.std.specs.Prelude.{◌≡◌, ℕ, ◌<◌, ◌==◌, [], ◌∷◌, ◌++◌, length};

use device::commands::Command;
use std::marker::Model;

// No `ArrayVec`, which writes over each of its items when it is cleared.
/// Commands in their order, at most 256 of them.
#[derive(Drop)]
pub(crate) struct Commands {
    items: [Command; 256],
    len: usize,
}

impl Model for Commands {
    ghost use Rattle.device.specs.declared.commands.Command.{Command};
    ghost use Rattle.std.specs.Prelude.{◌≡◌, ◌≤◌, List, length, take};

    ghost Value = { List Command };

    ghost view = { λ s. take s.len s.items };

    ghost invariant = { λ s. (s.len ≤ 256) × (length s.items ≡ 256) };
}

impl Commands {
    /// None.
    pub(crate) fn new() -> Commands
        ensures { result ≡ [] }
    {
        Commands {
            items: [Command::default(); 256],
            len: 0,
        }
    }

    /// How many there are.
    pub(crate) fn len(&self) -> usize
        ensures { result ≡ length self.now }
    {
        self.len
    }

    /// Whether there are 256.
    pub(crate) fn is_full(&self) -> bool
        ensures { result ≡ (length self.now == 256) }
    {
        self.len == 256
    }

    /// All of them, the oldest first.
    pub(crate) fn as_slice(&self) -> &[Command]
        ensures { result.now ≡ self.now }
    {
        &self.items[..self.len]
    }

    /// Adds one at the end.
    pub(crate) fn push(&mut self, command: Command)
        requires { length self.old < 256 }
        ensures { self.new ≡ self.old ++ command ∷ [] }
    {
        self.items[self.len] = command;
        self.len += 1;
    }

    /// Forgets them all.
    pub(crate) fn clear(&mut self)
        ensures { self.new ≡ [] }
    {
        self.len = 0;
    }
}
