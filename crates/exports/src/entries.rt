ghost use Rattle.entry.specs.Entries.{unpacked};
ghost use Rattle.entry.specs.Verdicts.{argument_family, argument_words, verdict as checks};
ghost use Rattle.exports.specs.Entries.{entry_answer, metadata_of, verdict_answer, verdict_of, words_of};
ghost use Rattle.std.specs.Prelude.{◌≡◌};

use super::status::Failure;
use command::family::DrawCommandFamily;
use entry::metadata::MetadataEntry;
use entry::validate::Arguments;

/// The four words of one entry.
// A struct beside `MetadataEntry`, since its layout is C's.
#[repr(C)]
#[derive(Clone, Copy)]
pub struct Entry {
    pub src_offset: u32,
    pub dst_offset: u32,
    pub vertex_or_index_limit: u32,
    pub instance_limit: u32,
}

impl From<MetadataEntry> for Entry {
    ghost from_gives = { λ packed entry. entry ≡ words_of packed };

    fn from(packed: MetadataEntry) -> Entry {
        Entry {
            src_offset: packed.src_offset,
            dst_offset: packed.dst_offset,
            vertex_or_index_limit: packed.vertex_or_index_limit,
            instance_limit: packed.instance_limit,
        }
    }
}

impl From<Entry> for MetadataEntry {
    ghost from_gives = { λ entry packed. packed ≡ metadata_of entry };

    fn from(entry: Entry) -> MetadataEntry {
        MetadataEntry {
            src_offset: entry.src_offset,
            dst_offset: entry.dst_offset,
            vertex_or_index_limit: entry.vertex_or_index_limit,
            instance_limit: entry.instance_limit,
        }
    }
}

/// The words that the check of an entry leaves.
// C has no vector: five places, and how many of them are the draw's.
#[repr(C)]
#[derive(Clone, Copy)]
pub struct Verdict {
    /// 4, or 5 for an indexed draw.
    pub count: u32,
    /// The first `count` are the draw's; a fifth that is not is 0.
    pub words: [u32; 5],
}

/// The words of a checked draw, with a 0 in the fifth place where there are four.
impl From<Arguments> for Verdict {
    ghost from_gives = { λ arguments verdict. verdict ≡ verdict_of (argument_family arguments) (argument_words arguments) };

    fn from(arguments: Arguments) -> Verdict {
        match arguments {
            Arguments::Draw(words) => {
                let [count, instances, first, first_instance] = words;
                Verdict {
                    count: 4,
                    words: [count, instances, first, first_instance, 0],
                }
            }
            Arguments::DrawIndexed(words) => Verdict { count: 5, words },
        }
    }
}

/// Packs a draw into an entry. A kind other than 0 and 1 is refused, then a wide offset has no entry.
// A kind is a number here, since a host may name one that there is not; the five numbers are those of an entry's `new`.
pub fn pack_entry(
    kind: u64,
    src_offset: u64,
    dst_offset: u64,
    limit: u64,
    instance_limit: u64,
) -> Result<Entry, Failure>
    ensures { result ≡ entry_answer kind src_offset dst_offset limit instance_limit }
{
    let family = DrawCommandFamily::try_from(kind)?;
    let indexed = family.is_indexed();
    let packed = MetadataEntry::new(indexed, src_offset, dst_offset, limit, instance_limit);
    packed.map(Entry::from).ok_or(Failure::WideOffset)
}

/// Checks an entry against the words of its window, which it may not read outside of.
pub fn check_entry(
    entry: Entry,
    window: &[u32],
    first_instance_allowed: bool,
) -> Result<Verdict, Failure>
    ensures { result ≡ verdict_answer (unpacked (metadata_of entry)).family (checks first_instance_allowed (unpacked (metadata_of entry)) window.now) }
{
    MetadataEntry::from(entry)
        .validate(window, first_instance_allowed)
        .map(Verdict::from)
        .ok_or(Failure::OutsideWindow)
}
