ghost use Rattle.std.specs.Prelude.{◌≡◌, ℕ, ◌+◌, ◌^◌, ◌<◌, ◌≤◌, List, IfOk, true, if◌then◌else◌, Some, None};
ghost use Rattle.command.specs.declared.refusal.Refusal.{Refusal};
ghost use Rattle.places.specs.Laid.{Laid, LaidApart, Ends, Next, Span, span};
ghost use Rattle.places.specs.Placed.{fits, placed, numbered, Stocked, answered, current_after, supply_after};
ghost use Rattle.places.specs.Supplies.{grants};

use super::current::CurrentEntry;
use super::supply::Supply;
use command::refusal::Refusal;

// `current`, `size` and `buffer_size` stay three parameters: `get_subrange_impl` of the Rust takes the first two, and
// its buffers' size is a constant.

/// Whether `size` bytes have room in the current buffer.
pub fn fits_current(current: Option<CurrentEntry>, size: u64, buffer_size: u64) -> bool
    ensures { result ≡ fits current size buffer_size }
{
    current.is_some_and(|c| c.offset <= buffer_size && size <= buffer_size - c.offset)
}

/// Where `size` bytes go: at the current place where they fit, else at the start of the next buffer, or of the
/// first where there is no current place. Nothing where the next index is past 64 bits; a place in the current buffer
/// is never that.
pub fn next_place(
    current: Option<CurrentEntry>,
    size: u64,
    buffer_size: u64,
) -> Option<CurrentEntry>
    ensures answer { result ≡ (if numbered (placed current size buffer_size) then Some (placed current size buffer_size) else None) }
    ensures kept { fits current size buffer_size ≡ true → result ≡ current }
{
    if fits_current(current, size, buffer_size) {
        return current;
    }
    let index = match current {
        Some(c) => c.index.checked_add(1)?,
        None => 0,
    };
    Some(CurrentEntry { index, offset: 0 })
}

/// Hands out the next place for `size` bytes, and moves the current place past it. A new buffer is asked of the
/// supply; where that has none, nothing changes.
#[tactic(auto, using(crate::proofs::Laying::answered_past, crate::proofs::Spreading::laid_apart))]
pub fn get_subrange_impl<S: Supply>(
    supply: &mut S,
    current_entry: &mut Option<CurrentEntry>,
    size: u64,
    buffer_size: u64,
) -> Result<CurrentEntry, Refusal>
    ensures answer { result ≡ answered current_entry.old size buffer_size (grants (S.Supply.held (S.Supply.view supply.old)) (S.Supply.more (S.Supply.view supply.old))) }
    ensures current { current_entry.new ≡ current_after result size current_entry.old }
    ensures supply { S.Supply.view supply.new ≡ supply_after S.Supply.ensured result (fits current_entry.old size buffer_size) (S.Supply.view supply.old) }
    ensures kept { S.Supply.names supply.new ≡ S.Supply.names supply.old }
    ensures stock { Stocked current_entry.old (S.Supply.held (S.Supply.view supply.old)) (S.Supply.more (S.Supply.view supply.old)) (S.Supply.held (S.Supply.view supply.new)) (S.Supply.more (S.Supply.view supply.new)) result }
    ensures laid { (spans : List Span) → Laid buffer_size spans → Ends current_entry.old spans → IfOk result (λ p. Next buffer_size spans current_entry.new (span p size)) }
    ensures apart { LaidApart }
{
    let place = next_place(*current_entry, size, buffer_size).ok_or(Refusal::NoBuffer)?;
    if !fits_current(*current_entry, size, buffer_size) {
        supply.ensure(place.index)?;
    }
    *current_entry = Some(CurrentEntry {
        index: place.index,
        offset: place.offset + size,
    });
    Ok(place)
}
