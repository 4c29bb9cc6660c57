ghost use Rattle.std.specs.Prelude.{◌<◌, length};

use super::commands::Commands;

pub mod encode;
pub mod queue;

/// Holds commands back and plays them, in their order, to the encoder below: when 256 are held, when it is told to
/// submit, and before any call that is no command and no question. It cannot be let go: `finish` plays what is held
/// and gives the encoder below back.
pub struct Deferred<E> {
    below: E,
    held: Commands,
    ghost few: { length held < 256 },
}
