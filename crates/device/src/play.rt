ghost use Rattle.device.specs.Laws.{Leaves, LeavesAll, MarkNeverFalls};
ghost use Rattle.device.specs.Plays.{play_all, played};
ghost use Rattle.std.specs.Prelude.{◌≡◌};

use super::commands::Command;
use super::interface::Encoder;

/// Gives one command to an encoder.
pub fn play<E: Encoder>(encoder: &mut E, command: Command)
    ensures after { E.Device.means encoder.new ≡ played command (E.Device.means encoder.old) }
    ensures leaves { Leaves command (E.Device.means encoder.old) (E.Device.means encoder.new) }
    ensures mark { MarkNeverFalls }
{
    // Commands are values that encoders keep and compare, so they are told apart here and nowhere else.
    match command {
        Command::Transition(barrier) => encoder.transition(barrier),
        Command::Copy(region) => encoder.copy(region),
        Command::Begin => encoder.begin(),
        Command::Dispatch(batch) => encoder.dispatch(batch),
        Command::End => encoder.end(),
    }
}

/// Gives commands to an encoder, one after another.
pub fn play_all<E: Encoder>(encoder: &mut E, commands: &[Command])
    ensures after { E.Device.means encoder.new ≡ play_all commands.now (E.Device.means encoder.old) }
    ensures leaves { LeavesAll (E.Device.means encoder.old) (E.Device.means encoder.new) }
{
    for command in commands {
        play(encoder, *command);
    }
}
