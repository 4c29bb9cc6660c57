ghost use Rattle.std.specs.Prelude.{◌≡◌, ◌++◌, string_bytes, OnOk};
ghost use Rattle.sheet.specs.Printed.{batch_lines, entry_lines, line_of, line_text, newline};

use batcher::records::{BatchKey, DrawIndirectValidationBatch, IndirectDraw};
use command::refusal::Refusal;
use entry::metadata::MetadataEntry;
use places::current::CurrentEntry;
use std::alloc::AllocError;

/// A line of what is printed.
#[derive(Clone, Copy)]
pub(crate) enum AnswerLine {
    /// The first line of a text that is bad or missing, from 1, or 0 for a text that is too long: a number, since it
    /// is printed as one.
    Bad(u64),
    /// Why a draw is refused, or the settings, or the plan.
    Refused(Refusal),
    /// Where an accepted draw goes.
    Place(CurrentEntry),
    /// A batch: its key, how many entries it has, and where its staging and its metadata stand.
    Batch(DrawIndirectValidationBatch),
    /// What is checked of a draw.
    Entry(MetadataEntry),
}

/// The line of a draw's answer.
impl From<Result<CurrentEntry, Refusal>> for AnswerLine {
    ghost from_gives = { λ answer line. line ≡ line_of answer };

    fn from(answer: Result<CurrentEntry, Refusal>) -> AnswerLine {
        match answer {
            Ok(place) => AnswerLine::Place(place),
            Err(refusal) => AnswerLine::Refused(refusal),
        }
    }
}

impl AnswerLine {
    /// Appends the line and its newline.
    // By `write!` into the text, and no `Display`: through one, which the text's own formatter has to call, a sheet of
    // many lines took a third more time. Not inlined, so that each `write!` stands once and is compiled for its words.
    pub(crate) fn put(self, out: &mut String) -> Result<(), AllocError>
        ensures { OnOk result (string_bytes out.new ≡ string_bytes out.old ++ (line_text self ++ newline)) }
    {
        match self {
            AnswerLine::Bad(number) => writeln!(out, "bad={number}"),
            AnswerLine::Refused(refusal) => writeln!(out, "refused={}", refusal.number()),
            AnswerLine::Place(place) => writeln!(out, "place={},{}", place.index, place.offset),
            AnswerLine::Batch(batch) => {
                let BatchKey {
                    source,
                    window,
                    destination,
                } = batch.key;
                let count = batch.count;
                write!(out, "batch={source},{window},{destination},{count},")?;
                let (staging, metadata) = (batch.staging, batch.metadata);
                writeln!(
                    out,
                    "{},{},{},{}",
                    staging.index, staging.offset, metadata.index, metadata.offset
                )
            }
            AnswerLine::Entry(entry) => {
                let MetadataEntry {
                    src_offset,
                    dst_offset,
                    vertex_or_index_limit,
                    instance_limit,
                } = entry;
                writeln!(
                    out,
                    "entry={src_offset},{dst_offset},{vertex_or_index_limit},{instance_limit}"
                )
            }
        }
    }
}

// The entries of one batch, in the order of their draws.
fn put_entries(out: &mut String, number: usize, draws: &[IndirectDraw]) -> Result<(), AllocError>
    ensures { OnOk result (string_bytes out.new ≡ string_bytes out.old ++ entry_lines number draws.now) }
{
    for draw in draws.iter().filter(|draw| draw.batch == number) {
        AnswerLine::Entry(draw.entry).put(out)?;
    }
    Ok(())
}

// Each batch, by its number, with its entries.
pub(crate) fn put_batches(
    out: &mut String,
    draws: &[IndirectDraw],
    batches: &[DrawIndirectValidationBatch],
) -> Result<(), AllocError>
    ensures { OnOk result (string_bytes out.new ≡ string_bytes out.old ++ batch_lines 0 draws.now batches.now) }
{
    for (number, batch) in batches.iter().enumerate() {
        AnswerLine::Batch(*batch).put(out)?;
        put_entries(out, number, draws)?;
    }
    Ok(())
}
