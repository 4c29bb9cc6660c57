ghost use Rattle.sheet.specs.Printed.{printed};
ghost use Rattle.std.specs.Prelude.{◌≡◌, ◌⊎◌, ◌++◌, length, drop, if◌then◌else◌, is_ok, nat_le, Ok, Err};

use super::status::Failure;
use sheet::answer::answer;
use std::alloc::Global;

/// Prints what a sheet answers. `needed` becomes the length of the print, also where the output is shorter and nothing
/// is written to it. For want of memory nothing is written at all.
// The length is an output, since it is told with a failure too.
pub fn put_sheet(
    heap: Global,
    text: &[u8],
    output: &mut [u8],
    needed: &mut usize,
) -> Result<(), Failure>
    ensures outcome { ((result ≡ Err Failure.NoMemory) × (needed.new ≡ needed.old)) ⊎ ((result ≡ (if nat_le (length (printed text.now)) (length output.old) then Ok tt else Err Failure.ShortOutput)) × (needed.new ≡ length (printed text.now))) }
    ensures written { output.new ≡ (if is_ok result then printed text.now ++ drop (length (printed text.now)) output.old else output.old) }
{
    let print = answer(heap, text)?;
    let bytes = print.as_bytes();
    *needed = bytes.len();
    if bytes.len() > output.len() {
        return Err(Failure::ShortOutput);
    }
    output[..bytes.len()].copy_from_slice(bytes);
    Ok(())
}
