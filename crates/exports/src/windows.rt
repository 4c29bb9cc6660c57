ghost use Rattle.exports.specs.Windows.{window_answer};
ghost use Rattle.std.specs.Prelude.{◌≡◌};

use super::status::Failure;
use command::settings::Settings;
use entry::window::{calculate_src_buffer_binding_size, calculate_src_offsets};

/// A window over a source, in bytes.
#[repr(C)]
#[derive(Clone, Copy)]
pub struct Window {
    /// The length of every window over the source.
    pub binding_size: u64,
    /// Where in the source the window begins.
    pub dynamic_offset: u64,
    /// Where in the window the offset lies.
    pub offset: u64,
}

/// The window that serves `offset` in a source of `size` bytes, where the settings are lawful.
pub fn find_window(
    alignment: u64,
    largest_binding: u64,
    size: u64,
    offset: u64,
) -> Result<Window, Failure>
    ensures { result ≡ window_answer alignment largest_binding size offset }
{
    let settings = Settings::new(alignment, largest_binding)?;
    let offsets = calculate_src_offsets(size, &settings, offset);
    Ok(Window {
        binding_size: calculate_src_buffer_binding_size(size, &settings),
        dynamic_offset: offsets.dynamic_offset,
        offset: offsets.offset,
    })
}
