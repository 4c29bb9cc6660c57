ghost use Rattle.std.specs.Prelude.{◌≡◌, IfOk, string_bytes};
ghost use Rattle.page_text.specs.Laws.{ReadsBack};
ghost use Rattle.page.specs.Sheets.{sheet_of};
ghost use Rattle.page.specs.Written.{written};

use page::page::Page;
use std::alloc::{AllocError, Global};

/// The text of a page, each line with its newline.
pub fn write_page(heap: Global, page: &Page) -> Result<String, AllocError>
    ensures text { IfOk result (λ s. string_bytes s ≡ written (sheet_of page.now)) }
    ensures back { IfOk result (λ s. ReadsBack (string_bytes s) (sheet_of page.now)) }
{
    page.to_string(heap)
}
