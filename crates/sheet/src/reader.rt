ghost use Rattle.std.specs.Prelude.{◌≡◌, IfOk, IfSome, string_bytes};
ghost use Rattle.sheet.specs.Laws.{Tells};
ghost use Rattle.sheet.specs.Printed.{printed};

use super::answer::answer;
use page::read::MOST_BYTES;
use std::alloc::Global;
use std::io;
use std::io::Read;

/// What is printed of all that a reader gives; of a text that is too long no more is read than shows it.
pub fn answer_from<R: Read + Drop>(heap: Global, reader: R) -> io::Result<String>
    ensures text { IfOk result (λ s. IfSome (R.remaining reader) (λ text. string_bytes s ≡ printed text)) }
    ensures tells { IfOk result (λ s. IfSome (R.remaining reader) (λ text. Tells text (string_bytes s))) }
{
    let mut text = Vec::new(heap);
    // One byte more than a sheet may have, so that a longer text is seen to be longer. By `as`: Rust has no `From` of a
    // usize into 64 bits.
    reader.take(MOST_BYTES as u64 + 1).read_to_end(&mut text)?;
    // The programs print what an AllocError says: of an `io::Error` made from one by `?` only the kind is kept, and that
    // prints as another text. This error holds its words itself, so that making it allocates nothing.
    answer(heap, &text).map_err(|_| io::Error::new(
        io::ErrorKind::OutOfMemory,
        "memory allocation failed",
    ))
}
