ghost use Rattle.std.specs.Prelude.{◌≡◌, ◌++◌, length, drop, if◌then◌else◌, None, nat_le};
ghost use Rattle.frame_exports.specs.Subranges.{places_told};
ghost use Rattle.places.specs.Counts.{counts};

use frame_exports::status::status_of;
use frame_exports::subranges::{Place, put_places};

/// Places sizes one after another in buffers of `buffer_size` bytes, of which there are `buffers`. Each size has a
/// place of its own in the output, which is refused for want of a buffer alone. Status 67 where the output has
/// fewer places than there are sizes: nothing is written.
#[unsafe(no_mangle)]
pub extern "C" fn jorumspit_places(
    sizes: &[u64],
    buffer_size: u64,
    buffers: usize,
    places: &mut [Place],
) -> u32
    ensures status { result ≡ (if nat_le (length sizes.now) (length places.old) then 0 else 67) }
    ensures written { places.new ≡ (if nat_le (length sizes.now) (length places.old) then places_told buffer_size sizes.now None (counts 0 buffers) ++ drop (length sizes.now) places.old else places.old) }
{
    status_of(put_places(sizes, buffer_size, buffers, places))
}
