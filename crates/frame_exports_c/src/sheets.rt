ghost use Rattle.sheet.specs.Printed.{printed};
ghost use Rattle.std.specs.Prelude.{◌≡◌, ◌⊎◌, ◌++◌, length, drop, if◌then◌else◌, nat_eq, nat_le};

use frame_exports::sheets::put_sheet;
use frame_exports::status::status_of;
use std::alloc::Global;

/// Prints what a sheet answers. `needed` becomes the length of the print, also where the output is shorter
/// (status 67) and nothing is written to it. Status 68 for want of memory: nothing is written at all.
#[unsafe(no_mangle)]
pub extern "C" fn jorumspit_sheet(
    heap: Global,
    text: &[u8],
    output: &mut [u8],
    needed: &mut usize,
) -> u32
    ensures status { (result ≡ 68) ⊎ (result ≡ (if nat_le (length (printed text.now)) (length output.old) then 0 else 67)) }
    ensures needed { needed.new ≡ (if nat_eq result 68 then needed.old else length (printed text.now)) }
    ensures written { output.new ≡ (if nat_eq result 0 then printed text.now ++ drop (length (printed text.now)) output.old else output.old) }
{
    status_of(put_sheet(heap, text, output, needed))
}
