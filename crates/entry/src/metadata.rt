ghost use Rattle.std.specs.Prelude.{◌≡◌, ℕ, ◌+◌, ◌*◌, ◌/◌, ◌%◌, ◌^◌, ◌<◌, Bool, if◌then◌else◌, Some, None, ◌==◌, nat_lt};
ghost use Rattle.entry.specs.Entries.{Recovers, byte_offset, cut, entry_from, entry_of, entry_words, kind_bit, packed, unpacked};

use command::family::DrawCommandFamily;

// A constant's value cannot call `u64::from`.
const U32_MAX_AS_U64: u64 = u32::MAX as u64;

/// One entry as the words that the check reads: offsets in words, limits of 33 bits.
#[derive(Clone, Copy, Default, PartialEq, Eq)]
pub struct MetadataEntry {
    /// Bit 31: whether the draw is indexed.
    pub src_offset: u32,
    /// Bits 30 and 31: bit 32 of the first limit and of the instance limit.
    pub dst_offset: u32,
    pub vertex_or_index_limit: u32,
    pub instance_limit: u32,
}

/// What an entry says, its offsets in bytes.
#[derive(Clone, Copy)]
pub struct Unpacked {
    pub family: DrawCommandFamily,
    pub src_offset: u64,
    pub dst_offset: u64,
    pub vertex_or_index_limit: u64,
    pub instance_limit: u64,
}

/// An offset in words, where the bytes are counted in 32 bits.
fn u64_offset_to_u32_offset(offset: u64) -> Option<u32>
    ensures { result ≡ (if nat_lt offset (2 ^ 32) then Some (offset / 4) else None) }
{
    let bytes = u32::try_from(offset).ok()?;
    Some(bytes / 4)
}

/// A limit cut to the largest sum of two words, as its bit 32 and its low word.
// Bit 32 is a part of the number, and no flag that says whether there is a word.
fn split_limit(limit: u64) -> (bool, u32)
    ensures bit_32 { kind_bit result.0 ≡ cut limit / 2 ^ 32 }
    ensures low { result.1 ≡ cut limit % 2 ^ 32 }
{
    let limit = limit.min(U32_MAX_AS_U64 + U32_MAX_AS_U64);
    // The mask leaves 32 bits, which the cast is proved to keep: `try_from` would answer an error that there cannot be.
    (limit >> 32 == 1, (limit & U32_MAX_AS_U64) as u32)
}

/// A limit of its bit 32 and its low word.
fn join_limit(bit_32: bool, low: u32) -> u64
    ensures { result ≡ kind_bit bit_32 * 2 ^ 32 + low }
{
    (u64::from(bit_32) << 32) + u64::from(low)
}

/// A word with a flag added at a place above all the bits that it has.
fn add_flag(word: u32, flag: bool, place: u32) -> u32
    requires above { word < 2 ^ place }
    requires inside { place < 32 }
    ensures { result ≡ word + kind_bit flag * 2 ^ place }
{
    word | (u32::from(flag) << place)
}

/// Whether a word has the bit at a place.
fn has_flag(word: u32, place: u32) -> bool
    requires { place < 32 }
    ensures { result ≡ (word / 2 ^ place % 2 == 1) }
{
    (word >> place) & 1 == 1
}

/// The bytes before the word that a packed offset names; its bits 30 and 31 mean something else.
fn byte_offset(word: u32) -> u64
    ensures { result ≡ byte_offset word }
{
    u64::from(word % 0x4000_0000) * 4
}

impl MetadataEntry {
    /// The entry of a draw, or nothing where an offset does not fit 32 bits.
    // A flag and five parameters, as in the Rust, whose signatures ported files keep.
    pub fn new(
        indexed: bool,
        src_offset: u64,
        dst_offset: u64,
        vertex_or_index_limit: u64,
        instance_limit: u64,
    ) -> Option<MetadataEntry>
        ensures { result ≡ entry_of indexed src_offset dst_offset vertex_or_index_limit instance_limit }
    {
        let src_offset = u64_offset_to_u32_offset(src_offset)?;
        let dst_offset = u64_offset_to_u32_offset(dst_offset)?;
        let (limit_bit_32, vertex_or_index_limit) = split_limit(vertex_or_index_limit);
        let (instance_bit_32, instance_limit) = split_limit(instance_limit);
        Some(MetadataEntry {
            src_offset: add_flag(src_offset, indexed, 31),
            dst_offset: add_flag(add_flag(dst_offset, limit_bit_32, 30), instance_bit_32, 31),
            vertex_or_index_limit,
            instance_limit,
        })
    }

    /// Which sort of draw the entry is of: bit 31 of the first word.
    // The bit's meaning is said here alone, so that there is no conversion of flags into families.
    fn family(&self) -> DrawCommandFamily
        ensures { result ≡ (unpacked self.now).family }
    {
        if has_flag(self.src_offset, 31) {
            DrawCommandFamily::DrawIndexed
        } else {
            DrawCommandFamily::Draw
        }
    }

    /// What the words say, whoever wrote them.
    pub fn unpack(&self) -> Unpacked
        ensures value { result ≡ unpacked self.now }
        ensures recovers { (indexed : Bool) (src dst l1 l2 : ℕ) → src < 2 ^ 32 → dst < 2 ^ 32 → self.now ≡ packed indexed src dst l1 l2 → Recovers indexed src dst l1 l2 result }
    {
        Unpacked {
            family: self.family(),
            src_offset: byte_offset(self.src_offset),
            dst_offset: byte_offset(self.dst_offset),
            vertex_or_index_limit: join_limit(
                has_flag(self.dst_offset, 30),
                self.vertex_or_index_limit,
            ),
            instance_limit: join_limit(has_flag(self.dst_offset, 31), self.instance_limit),
        }
    }
}

/// The words of an entry in the order in which they are staged.
impl From<MetadataEntry> for [u32; 4] {
    ghost from_gives = { λ entry words. words ≡ entry_words entry };

    fn from(entry: MetadataEntry) -> [u32; 4] {
        [
            entry.src_offset,
            entry.dst_offset,
            entry.vertex_or_index_limit,
            entry.instance_limit,
        ]
    }
}

/// The entry of four staged words.
impl From<[u32; 4]> for MetadataEntry {
    ghost from_gives = { λ words entry. entry ≡ entry_from words };

    fn from(words: [u32; 4]) -> MetadataEntry {
        let [src_offset, dst_offset, limit, instance_limit] = words;
        MetadataEntry {
            src_offset,
            dst_offset,
            vertex_or_index_limit: limit,
            instance_limit,
        }
    }
}
