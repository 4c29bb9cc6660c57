ghost use Rattle.std.specs.Prelude.{◌≡◌, ℕ, ◌+◌, ◌≤◌};
ghost use Rattle.entry.specs.Window.{WindowLaw, binding_size_of, dynamic_offset_of, src_offsets};

use command::settings::Settings;

/// Indexed indirect draw arguments are 20 bytes, and no others are longer.
const MAX_DATA_SIZE: u64 = 20;

/// An offset in a source, split into where a window begins and where in that window the offset lies.
#[derive(Clone, Copy)]
pub struct SrcOffsets {
    pub dynamic_offset: u64,
    pub offset: u64,
}

// The parameters that the three functions share stand apart, as in the Rust that they follow.

/// Returns the largest binding size that when combined with dynamic offsets can address the whole buffer.
pub fn calculate_src_buffer_binding_size(buffer_size: u64, settings: &Settings) -> u64
    ensures { result ≡ binding_size_of settings.now.alignment settings.now.largest_binding buffer_size }
{
    let alignment = settings.alignment();
    let largest_binding = settings.largest_binding();
    if buffer_size <= largest_binding {
        return buffer_size;
    }
    let buffer_rem = buffer_size % alignment;
    let binding_rem = largest_binding % alignment;
    // Where the buffer's remainder fits in the binding's, it takes its place; else it takes the place of a chunk.
    if buffer_rem <= binding_rem {
        largest_binding - binding_rem + buffer_rem
    } else {
        largest_binding - binding_rem - alignment + buffer_rem
    }
}

/// Where the window begins that serves `offset`.
fn calculate_dynamic_offset(buffer_size: u64, settings: &Settings, offset: u64) -> u64
    ensures value { result ≡ dynamic_offset_of settings.now.alignment settings.now.largest_binding buffer_size offset }
    ensures below { result ≤ offset }
{
    let binding_size = calculate_src_buffer_binding_size(buffer_size, settings);
    let alignment = settings.alignment();
    // The longest arguments set the stride for every kind, so that draws of both kinds share windows.
    let dynamic_offset_stride = binding_size.saturating_sub(MAX_DATA_SIZE) / alignment * alignment;
    if dynamic_offset_stride == 0 {
        return 0;
    }
    let max_dynamic_offset = buffer_size - binding_size;
    max_dynamic_offset.min(offset / dynamic_offset_stride * dynamic_offset_stride)
}

/// Splits the given `offset` into a dynamic offset and an offset in the window.
pub fn calculate_src_offsets(buffer_size: u64, settings: &Settings, offset: u64) -> SrcOffsets
    ensures value { result ≡ src_offsets settings.now.alignment settings.now.largest_binding buffer_size offset }
    ensures law { (d : ℕ) → d ≤ 20 → offset + d ≤ buffer_size → WindowLaw settings.now.alignment settings.now.largest_binding buffer_size offset d (binding_size_of settings.now.alignment settings.now.largest_binding buffer_size) result }
{
    let dynamic_offset = calculate_dynamic_offset(buffer_size, settings, offset);
    SrcOffsets {
        dynamic_offset,
        offset: offset - dynamic_offset,
    }
}
