ghost use Rattle.std.specs.Prelude.{◌≡◌, ℕ, Bool, true, nat_le};
ghost use Rattle.places.specs.Placed.{following};

use places::current::CurrentEntry;

pub mod add;
pub mod counts;
mod judge;

/// Accumulates what is needed to validate indirect draws; the records stand in tables that the caller keeps.
#[derive(Clone, Copy)]
pub struct DrawBatcher {
    // Counts without their lists: the tables are lent to each call, since nothing is allocated.
    draws: usize,
    batches: usize,
    current: Option<CurrentEntry>,
    // Each draw opens at most one buffer, so that buffers are never out of numbers.
    ghost reached: { nat_le (following current) draws ≡ true },
}
