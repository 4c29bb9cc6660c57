ghost use Rattle.entry.specs.Entries.{unpacked};
ghost use Rattle.entry.specs.Verdicts.{verdict as checks};
ghost use Rattle.exports.specs.Entries.{entry_status, entry_written, metadata_of, verdict_status, verdict_written};
ghost use Rattle.std.specs.Prelude.{◌≡◌, not, nat_eq};

use exports::entries::{Entry, Verdict, check_entry, pack_entry};
use exports::status::give;

/// Packs a draw into an entry. Status 7 for a kind other than 0 and 1, then 65 for a wide offset.
#[unsafe(no_mangle)]
pub extern "C" fn jorumspit_entry(
    kind: u64,
    src_offset: u64,
    dst_offset: u64,
    limit: u64,
    instance_limit: u64,
    entry: &mut Entry,
) -> u32
    ensures status { result ≡ entry_status kind src_offset dst_offset }
    ensures written { entry.new ≡ entry_written kind src_offset dst_offset limit instance_limit entry.old }
{
    let packed = pack_entry(kind, src_offset, dst_offset, limit, instance_limit);
    give(packed, entry)
}

/// Checks an entry against the words of its window. A flag of 0 allows no first instance but 0.
/// Status 64 where the entry reads outside the window.
#[unsafe(no_mangle)]
pub extern "C" fn jorumspit_verdict(
    entry: &Entry,
    window: &[u32],
    first_instance_allowed: u32,
    verdict: &mut Verdict,
) -> u32
    ensures status { result ≡ verdict_status (checks (not (nat_eq first_instance_allowed 0)) (unpacked (metadata_of entry.now)) window.now) }
    ensures written { verdict.new ≡ verdict_written (unpacked (metadata_of entry.now)).family (checks (not (nat_eq first_instance_allowed 0)) (unpacked (metadata_of entry.now)) window.now) verdict.old }
{
    // C has a flag for whether other first instances are allowed.
    let checked = check_entry(*entry, window, first_instance_allowed != 0);
    give(checked, verdict)
}
