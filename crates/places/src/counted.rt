ghost use Rattle.std.specs.Prelude.{◌≡◌, ℕ, ◌+◌, ◌^◌, ◌<◌};
ghost use Rattle.places.specs.Counts.{Counts, counts, counted};

use super::supply::Supply;
use command::refusal::Refusal;

/// A supply that only counts its buffers.
#[derive(Clone, Copy)]
pub struct Counted {
    held: usize,
    left: usize,
    ghost fits: { held + left < 2 ^ 64 },
}

impl Counted {
    /// A supply of `most` buffers, none of them handed out yet.
    pub fn new(most: usize) -> Counted
        ensures { counts result.held result.left ≡ counts 0 most }
    {
        Counted {
            held: 0,
            left: most,
        }
    }

    /// How many buffers were handed out.
    pub fn held(&self) -> usize
        ensures { result ≡ self.now.held }
    {
        self.held
    }
}

impl Supply for Counted {
    ghost View = { Counts };

    ghost view = { λ s. counts s.held s.left };

    ghost held = { λ c. c.holds };

    ghost more = { λ c. c.left };

    ghost ensured = { counted };

    fn capacity(&self) -> usize {
        self.held + self.left
    }

    fn ensure(&mut self, index: usize) -> Result<(), Refusal> {
        if index == self.held && self.left > 0 {
            self.held += 1;
            self.left -= 1;
        }
        if index >= self.held {
            return Err(Refusal::NoBuffer);
        }
        Ok(())
    }
}
