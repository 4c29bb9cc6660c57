ghost use Rattle.std.specs.Prelude.{◌≡◌, ℕ, ◌≤◌, ◌++◌, length, IfOk, string_bytes, OnOk};
ghost use Rattle.batcher.specs.Judged.{frame_terms};
ghost use Rattle.page.specs.Sheets.{sheet_of};
ghost use Rattle.sheet.specs.Frames.{recorded_all};
ghost use Rattle.sheet.specs.Laws.{Tells};
ghost use Rattle.sheet.specs.Printed.{answer_lines, frame_text, planned_text, printed, sheet_text, terms_of};
ghost use Rattle.sheet.specs.View.{recording_of};

use super::frame::Frame;
use super::print::{AnswerLine, put_batches};
use batcher::records::{DrawIndirectValidationBatch, IndirectDraw};
use batcher::tables::Tables;
use command::settings::Settings;
use page::line::DrawLine;
use page::page::Page;
use page::read::{ReadError, read};
use std::alloc::{AllocError, Global};

// That a function appends is said as `write!` says it, by the bytes before and after.

// Records the draws of a sheet, and prints each answer.
fn put_draws(
    out: &mut String,
    frame: &mut Frame,
    tables: &mut Tables,
    sources: &[u64],
    lines: &[DrawLine],
) -> Result<(), AllocError>
    ensures text { OnOk result (string_bytes out.new ≡ string_bytes out.old ++ answer_lines (frame_terms frame.old.terms) sources.now (recording_of frame.old tables.old) lines.now) }
    ensures after { OnOk result (recording_of frame.new tables.new ≡ recorded_all (frame_terms frame.old.terms) sources.now (recording_of frame.old tables.old) lines.now) }
    ensures terms { OnOk result (frame.new.terms ≡ frame.old.terms) }
{
    for line in lines {
        let answer = frame.record(tables, sources, line);
        AnswerLine::from(answer).put(out)?;
    }
    Ok(())
}

// Plans what was recorded, and prints each batch with its entries.
fn put_plan(out: &mut String, frame: &Frame, tables: &mut Tables) -> Result<(), AllocError>
    ensures { OnOk result (string_bytes out.new ≡ string_bytes out.old ++ planned_text frame.now.terms.sizes.block frame.now.terms.sizes.buffer (recording_of frame.now tables.old)) }
{
    match frame.plan(tables.batches) {
        Ok(_) => put_batches(out, frame.draws(tables), frame.batches(tables)),
        Err(refusal) => AnswerLine::Refused(refusal).put(out),
    }
}

// Records a frame, plans it, and prints both. A host's frame begins in the same way: one function for both would take
// all that is done with answers and plan as closures.
fn put_frame(
    out: &mut String,
    settings: Settings,
    sources: &[u64],
    lines: &[DrawLine],
) -> Result<(), AllocError>
    ensures { OnOk result (string_bytes out.new ≡ string_bytes out.old ++ frame_text (terms_of settings.alignment settings.largest_binding) 67108864 sources.now lines.now) }
{
    let mut draws = [IndirectDraw::empty(); 1024];
    let mut batches = [DrawIndirectValidationBatch::empty(); 256];
    let mut tables = Tables {
        draws: &mut draws,
        batches: &mut batches,
    };
    let mut frame = Frame::new(settings);
    put_draws(out, &mut frame, &mut tables, sources, lines)?;
    put_plan(out, &frame, &mut tables)
}

fn put_sheet(out: &mut String, page: &Page) -> Result<(), AllocError>
    ensures { OnOk result (string_bytes out.new ≡ string_bytes out.old ++ sheet_text (sheet_of page.now)) }
{
    match Settings::new(page.align, page.binding) {
        Ok(settings) => put_frame(out, settings, &page.sources, &page.draws),
        Err(refusal) => AnswerLine::Refused(refusal).put(out),
    }
}

/// What is printed of a text: the answers and the plan of the sheet that it is, or why there are none.
pub fn answer(heap: Global, text: &[u8]) -> Result<String, AllocError>
    ensures text { IfOk result (λ s. string_bytes s ≡ printed text.now) }
    ensures tells { IfOk result (λ s. Tells text.now (string_bytes s)) }
{
    let mut out = String::new(heap);
    match read(heap, text) {
        Ok(page) => put_sheet(&mut out, &page)?,
        Err(ReadError::Bad(number)) => AnswerLine::Bad(number).put(&mut out)?,
        Err(ReadError::TooLong) => AnswerLine::Bad(0).put(&mut out)?,
        Err(ReadError::Memory(failed)) => return Err(failed),
    }
    Ok(out)
}
