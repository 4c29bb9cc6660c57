ghost use Rattle.page.specs.Sheets.{Reads, read_page, sheet_of};
ghost use Rattle.page_text.specs.Laws.{Says, Spells};
ghost use Rattle.std.specs.Prelude.{IfOk, IfErr};

use page::page::Page;
use page::read::{ReadError, read};
use std::alloc::Global;

/// The page that a text is, or why it is none.
// Apart from `page`, so that the laws do not weigh on the proofs of reading.
pub fn read_page(heap: Global, text: &[u8]) -> Result<Page, ReadError>
    ensures answer { Reads result (read_page text.now) }
    ensures spelt { IfOk result (λ p. Spells text.now (sheet_of p)) }
    ensures first { IfErr result (λ e. Says e text.now) }
{
    read(heap, text)
}
