ghost use Rattle.std.specs.Prelude.{◌≡◌, ℕ, ◌+◌, ◌-◌, ◌/◌, ◌<◌, ◌≤◌, true, ◌⊎◌, List, ◌++◌, length};
ghost use Rattle.device.specs.Dispatches.{all_inside, drawn, entries_from, inside, place_at, place_words, ran};
ghost use Rattle.direct_memory.specs.Regions.{words_of};
ghost use Rattle.direct_memory.specs.CanRun.{CanRun};
ghost use Rattle.entry.specs.Entries.{entry_from};
ghost use Rattle.std.proofs.lemmas.List.Edits.{sets};

use super::words::{Region, write};
use command::family::{get_dst_stride_of_indirect_args, get_src_stride_of_indirect_args};
use entry::metadata::MetadataEntry;

/// The parts of a list of words that a dispatch is about: it reads entries and a window, and writes a destination.
#[derive(Clone, Copy)]
pub struct Parts {
    pub entries: Region,
    pub window: Region,
    pub destination: Region,
}

/// Whether the entry of four words reads inside a window and writes inside a destination of so many words.
fn is_inside(words: &[u32; 4], window: usize, destination: usize) -> bool
    ensures { result ≡ inside window destination (entry_from words.now) }
{
    let entry = MetadataEntry::from(*words).unpack();
    let read = (entry.src_offset + get_src_stride_of_indirect_args(entry.family)) / 4;
    let written = (entry.dst_offset + get_dst_stride_of_indirect_args(entry.family)) / 4;
    // Offsets have 64 bits, and Rust has no `From` between these and a usize.
    read <= window as u64 && written <= destination as u64
}

/// Whether all entries, four words each, read and write inside.
pub(crate) fn all_inside(entries: &[u32], window: usize, destination: usize) -> bool
    ensures { result ≡ all_inside window destination (entries_from entries.now (length entries.now / 4)) }
{
    let (entries, _) = entries.as_chunks::<4>();
    entries
        .iter()
        .all(|words| is_inside(words, window, destination))
}

/// Writes what the check of one entry leaves of its arguments to its place in the destination.
fn run_entry(destination: &mut [u32], entry: &MetadataEntry, window: &[u32], first_instances: bool)
    requires { place_at entry.now + place_words entry.now ≤ length destination.old }
    ensures { destination.new ≡ sets destination.old (place_at entry.now) (drawn first_instances window.now entry.now) }
{
    let Some(arguments) = entry.validate(window, first_instances) else {
        return;
    };
    // A place inside the destination is a usize, to which Rust has no `From`.
    let place = (entry.unpack().dst_offset / 4) as usize;
    write(destination, place, arguments.words());
}

/// Writes what the checks of entries leave of their arguments, one after another.
fn run_entries(destination: &mut [u32], entries: &[u32], window: &[u32], first_instances: bool)
    requires { all_inside (length window.now) (length destination.old) (entries_from entries.now (length entries.now / 4)) ≡ true }
    ensures { destination.new ≡ ran first_instances window.now (entries_from entries.now (length entries.now / 4)) destination.old }
{
    let (entries, _) = entries.as_chunks::<4>();
    for words in entries {
        run_entry(
            destination,
            &MetadataEntry::from(*words),
            window,
            first_instances,
        );
    }
}

/// The words of a region of three lists that stand one after another. It ends before the middle one begins, or begins
/// where that ends, at `end`, or after.
fn beside<'a>(below: &'a [u32], above: &'a [u32], end: usize, region: Region) -> &'a [u32]
    requires before { region.start < end → region.start + region.size ≤ length below.now }
    requires behind { end ≤ region.start → region.start + region.size ≤ end + length above.now }
    ensures { (middle : List ℕ) → length below.now + length middle ≡ end → result.now ≡ words_of region (below.now ++ (middle ++ above.now)) }
{
    if region.start < end {
        return region.of(below);
    }
    let region = Region {
        start: region.start - end,
        size: region.size,
    };
    region.of(above)
}

/// Writes what the checks of the entries leave of their arguments, one after another. Of the words only those of the
/// destination are lent for writing, so that no entry changes another or the window.
pub(crate) fn run(words: &mut [u32], parts: Parts, first_instances: bool)
    requires { CanRun parts words.old }
    ensures { words.new ≡ sets words.old parts.destination.start (ran first_instances (words_of parts.window words.old) (entries_from (words_of parts.entries words.old) (parts.entries.size / 4)) (words_of parts.destination words.old)) }
{
    let end = parts.destination.end();
    let (below, rest) = words.split_at_mut(parts.destination.start);
    let (destination, above) = rest.split_at_mut(parts.destination.size);
    let entries = beside(below, above, end, parts.entries);
    let window = beside(below, above, end, parts.window);
    run_entries(destination, entries, window, first_instances);
}
