ghost use Rattle.std.specs.Prelude.{◌^◌, ◌<◌};

use crate::line::read_line;
use crate::page::Page;
use crate::read::ReadError;
use crate::stage::Stage;
use std::alloc::Global;

/// What the lines of a text have said so far.
#[derive(Drop)]
pub struct Parser {
    /// The number of the next line, from 1. It is counted here, since `finish` names the line after the last.
    number: u64,
    stage: Stage,
    page: Page,
    ghost from_one: { 0 < number },
}

impl Parser {
    ghost use Rattle.page.specs.Parsers.{Started, Took};
    ghost use Rattle.page.specs.Sheets.{Reads, ended_at, sheet_of};

    pub fn new(heap: Global) -> Parser
        ensures { Started result }
    {
        Parser {
            number: 1,
            stage: Stage::Start,
            page: Page::new(heap),
        }
    }

    /// Reads the next line.
    pub fn take_line(&mut self, text: &[u8]) -> Result<(), ReadError>
        requires { self.old.number < 2 ^ 32 }
        ensures { Took text.now result self.old self.new }
    {
        let bad = ReadError::Bad(self.number);
        let line = read_line(text).ok_or(bad)?;
        let stage = self.stage.next(line).ok_or(bad)?;
        self.page.add(line)?;
        self.stage = stage;
        self.number += 1;
        Ok(())
    }

    /// The page, where the text may end here.
    pub fn finish(self) -> Result<Page, ReadError>
        ensures { Reads result (ended_at self.stage self.number (sheet_of self.page)) }
    {
        if self.stage.may_end() {
            Ok(self.page)
        } else {
            Err(ReadError::Bad(self.number))
        }
    }
}
