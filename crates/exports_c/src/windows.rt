ghost use Rattle.command.specs.Lawful.{lawful};
ghost use Rattle.exports.specs.Windows.{window_of};
ghost use Rattle.std.specs.Prelude.{◌≡◌, if◌then◌else◌};

use exports::status::give;
use exports::windows::{Window, find_window};

/// The window that serves `offset` in a source of `size` bytes. Status 1 where the settings are not lawful.
#[unsafe(no_mangle)]
pub extern "C" fn jorumspit_window(
    alignment: u64,
    largest_binding: u64,
    size: u64,
    offset: u64,
    window: &mut Window,
) -> u32
    ensures status { result ≡ (if lawful alignment largest_binding then 0 else 1) }
    ensures written { window.new ≡ (if lawful alignment largest_binding then window_of alignment largest_binding size offset else window.old) }
{
    let found = find_window(alignment, largest_binding, size, offset);
    give(found, window)
}
