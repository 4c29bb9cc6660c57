ghost use Rattle.command.specs.Refusals.{answer_number};
ghost use Rattle.std.specs.Prelude.{◌≡◌};

use super::refusal::Refusal;

/// What an accepted call of a recorder says.
#[derive(Clone, Copy)]
pub enum Accepted {
    /// A binding or a store was carried out.
    Done,
    /// A direct draw was accepted; whether both of its counts are above 0, so that there is anything to draw.
    Draws(bool),
    /// An indirect draw was recorded; its place is this destination buffer and this byte offset in it.
    // Two numbers: the type of places is of a crate above this one.
    At(usize, u64),
    /// A run was encoded, and its receipt has to be given back.
    Receipt,
    /// A run had nothing to do.
    Nothing,
}

/// The number of an answer: 0 where the call was accepted, else the refusal's.
// No `From`: neither the `Result` nor the number is a type of this crate.
pub fn number_of(answer: &Result<Accepted, Refusal>) -> u8
    ensures { result ≡ answer_number answer.now }
{
    match answer {
        Ok(_) => 0,
        Err(refusal) => refusal.number(),
    }
}
