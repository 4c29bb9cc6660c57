ghost use Rattle.std.specs.Prelude.{◌≡◌, Some};
ghost use Rattle.page.specs.Lines.{and_then, draw_of, line_of, numbers_of, source_of};
ghost use Rattle.page.specs.Written.{draw_text, line_text};

use crate::text::{first_number, number};
use std::fmt;

/// A source has at most so many bytes.
const LARGEST_SOURCE: u64 = 4_294_967_295;

/// The numbers of a draw's line, in their order. Each may be any number, the kind too: the line has the form of a draw
/// all the same, and the draw is refused when it is recorded.
#[derive(Clone, Copy)]
pub struct DrawLine {
    pub kind: u64,
    pub source: u64,
    pub offset: u64,
    pub first_limit: u64,
    pub instance_limit: u64,
}

/// A line of a sheet.
#[derive(Clone, Copy)]
pub enum Line {
    Align(u64),
    Binding(u64),
    Source(u64),
    Draw(DrawLine),
}

impl fmt::Display for DrawLine {
    ghost output = { λ d. Some (draw_text d) };

    fn fmt<W: fmt::Write>(&self, f: &mut fmt::Formatter<W>) -> fmt::Result {
        let DrawLine {
            kind,
            source,
            offset,
            first_limit,
            instance_limit,
        } = self;
        write!(f, "{kind},{source},{offset},{first_limit},{instance_limit}")
    }
}

/// The text of a line, without its newline.
impl fmt::Display for Line {
    ghost output = { λ l. Some (line_text l) };

    fn fmt<W: fmt::Write>(&self, f: &mut fmt::Formatter<W>) -> fmt::Result {
        match self {
            Line::Align(bytes) => write!(f, "align={bytes}"),
            Line::Binding(bytes) => write!(f, "binding={bytes}"),
            Line::Source(size) => write!(f, "source={size}"),
            Line::Draw(draw) => write!(f, "draw={draw}"),
        }
    }
}

fn read_source(text: &[u8]) -> Option<u64>
    ensures { result ≡ source_of text.now }
{
    number(text).filter(|size| *size <= LARGEST_SOURCE)
}

fn read_draw(text: &[u8]) -> Option<DrawLine>
    ensures { result ≡ and_then (numbers_of text.now) draw_of }
{
    let (kind, rest) = first_number(text)?;
    let (source, rest) = first_number(rest)?;
    let (offset, rest) = first_number(rest)?;
    let (first_limit, rest) = first_number(rest)?;
    let instance_limit = number(rest)?;
    Some(DrawLine {
        kind,
        source,
        offset,
        first_limit,
        instance_limit,
    })
}

/// The line that a text without a newline is, if it is one.
pub fn read_line(text: &[u8]) -> Option<Line>
    ensures { result ≡ line_of text.now }
{
    if let Some(rest) = text.strip_prefix(b"align=") {
        number(rest).map(Line::Align)
    } else if let Some(rest) = text.strip_prefix(b"binding=") {
        number(rest).map(Line::Binding)
    } else if let Some(rest) = text.strip_prefix(b"source=") {
        read_source(rest).map(Line::Source)
    } else {
        let rest = text.strip_prefix(b"draw=")?;
        read_draw(rest).map(Line::Draw)
    }
}
