ghost use Rattle.std.specs.Prelude.{◌≡◌, Some};
ghost use Rattle.page.specs.Errors.{error_text};
ghost use Rattle.page.specs.Sheets.{Reads, read_page};
ghost use Rattle.page.specs.declared.read.ReadError.TheVariants.{Memory};

use crate::page::Page;
use crate::parser::Parser;
use std::alloc::{AllocError, Global};
use std::error::Error;
use std::fmt;

/// A text has at most so many bytes.
pub const MOST_BYTES: usize = 65_536;

/// Why a text was not read.
#[derive(Clone, Copy, Debug, PartialEq, Eq)]
pub enum ReadError {
    /// The text is no sheet: its first line that is bad or missing, from 1.
    Bad(u64),
    /// The text has too many bytes for a sheet.
    TooLong,
    /// There was no memory for the page.
    Memory(AllocError),
}

impl fmt::Display for ReadError {
    ghost output = { λ e. Some (error_text e) };

    fn fmt<W: fmt::Write>(&self, f: &mut fmt::Formatter<W>) -> fmt::Result {
        match self {
            ReadError::Bad(number) => write!(f, "line {number} is bad or missing"),
            ReadError::TooLong => write!(f, "the text is longer than {MOST_BYTES} bytes"),
            ReadError::Memory(_) => write!(f, "out of memory"),
        }
    }
}

impl Error for ReadError {}

impl From<AllocError> for ReadError {
    ghost from_gives = { λ failed error. error ≡ Memory failed };

    fn from(failed: AllocError) -> ReadError {
        ReadError::Memory(failed)
    }
}

/// The page that a text is, or why it is none.
pub fn read(heap: Global, text: &[u8]) -> Result<Page, ReadError>
    ensures answer { Reads result (read_page text.now) }
{
    if text.len() > MOST_BYTES {
        return Err(ReadError::TooLong);
    }
    let mut parser = Parser::new(heap);
    // A newline at the very end ends the last line and adds none.
    let body = text.strip_suffix(b"\n").unwrap_or(text);
    for line in body.split(|byte| *byte == b'\n') {
        parser.take_line(line)?;
    }
    parser.finish()
}
