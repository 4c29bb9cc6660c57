ghost use Rattle.std.specs.Prelude.{◌≡◌, min};
ghost use Rattle.arrayvec.specs.ArrayVec.{array_vec_len};

use arrayvec::ArrayVec;
use device::commands::Command;

pub mod encode;
pub mod log;

/// Passes every command on to the encoder below at once, and keeps the first 1,024 of them.
pub struct Logged<E> {
    below: E,
    log: ArrayVec<Command, 1024>,
    /// How many commands were passed on, kept or not.
    count: u64,
    ghost kept: { array_vec_len log ≡ min count 1024 },
}
