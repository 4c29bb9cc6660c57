ghost use Rattle.std.specs.Prelude.{◌≡◌, OnOk, Some};
ghost use Rattle.page.specs.Sheets.{added, empty, sheet_of};
ghost use Rattle.page.specs.Written.{written};

use crate::line::{DrawLine, Line};
use std::alloc::{AllocError, Global};
use std::fmt;

/// What a sheet says: its settings, the sizes of its sources, and its draws, in their order.
#[derive(Drop)]
pub struct Page {
    pub align: u64,
    pub binding: u64,
    pub sources: Vec<u64>,
    pub draws: Vec<DrawLine>,
}

impl Page {
    /// A page of which no line has been read. What is 0 or empty stays unread until the stage says otherwise.
    pub(crate) fn new(heap: Global) -> Page
        ensures { sheet_of result ≡ empty }
    {
        Page {
            align: 0,
            binding: 0,
            sources: Vec::new(heap),
            draws: Vec::new(heap),
        }
    }

    /// Enters what a line says.
    pub(crate) fn add(&mut self, line: Line) -> Result<(), AllocError>
        ensures { OnOk result (sheet_of self.new ≡ added (sheet_of self.old) line) }
    {
        match line {
            Line::Align(bytes) => self.align = bytes,
            Line::Binding(bytes) => self.binding = bytes,
            Line::Source(size) => self.sources.push(size)?,
            Line::Draw(draw) => self.draws.push(draw)?,
        }
        Ok(())
    }
}

/// The text of a page, each line with its newline.
impl fmt::Display for Page {
    ghost output = { λ p. Some (written (sheet_of p)) };

    fn fmt<W: fmt::Write>(&self, f: &mut fmt::Formatter<W>) -> fmt::Result {
        let (align, binding) = (Line::Align(self.align), Line::Binding(self.binding));
        write!(f, "{align}\n{binding}\n")?;
        for size in &self.sources {
            writeln!(f, "{}", Line::Source(*size))?;
        }
        for draw in &self.draws {
            writeln!(f, "{}", Line::Draw(*draw))?;
        }
        Ok(())
    }
}
