ghost use Rattle.std.specs.Prelude.{◌≡◌, ℕ, ◌+◌, List, [], Ok, Err, OnErr, if◌then◌else◌};
ghost use Rattle.places.specs.Supplies.{grants, held_after, more_after};
ghost use Rattle.std.specs.Borrow.{GName};

use command::refusal::Refusal;

/// A supply of buffers, numbered from 0 in the order in which they were asked for.
pub trait Supply {
    /// What a supply is to its callers.
    ghost View: { Type 0 };

    ghost view: { Self → View };

    /// How many buffers it holds, and how many more it can give.
    ghost held: { View → ℕ };

    ghost more: { View → ℕ };

    /// What it is after a buffer was asked for.
    ghost ensured: { View → ℕ → View };

    /// The ghost names of the references that the supply holds, which `ensure` keeps. Each function that takes a supply
    /// says again that it keeps them: no type of a supply could say so of one that is lent.
    ghost names: { Self → List GName } = { λ _. [] };

    /// How many buffers it could hold in all.
    fn capacity(&self) -> usize
        ensures { result ≡ held (view self.now) + more (view self.now) };

    /// Sees to it that buffer `index` is held. Refusal 15, and nothing changes, exactly where the buffer is not held
    /// and is not the next one, or no more can be given.
    fn ensure(&mut self, index: usize) -> Result<(), Refusal>
        ensures answer { result ≡ (if grants (held (view self.old)) (more (view self.old)) index then Ok tt else Err Refusal.NoBuffer) }
        ensures after { view self.new ≡ ensured (view self.old) index }
        ensures held { held (view self.new) ≡ held_after (held (view self.old)) (more (view self.old)) index }
        ensures more { more (view self.new) ≡ more_after (held (view self.old)) (more (view self.old)) index }
        ensures refused { OnErr result (view self.new ≡ view self.old) }
        ensures kept { names self.new ≡ names self.old };
}
