ghost use Rattle.std.specs.Prelude.{◌≡◌, ℕ, ◌≤◌, length, if◌then◌else◌, Some, None, MatchOption, nat_lt, slice_index_or};
ghost use Rattle.device.specs.Calls.{has_word, replaced};
ghost use Rattle.device.specs.Meaning.{Sound, no_source, source_size};
ghost use Rattle.direct_memory.specs.Held.{held};
ghost use Rattle.direct_memory.specs.Lies.{SourceLies};
ghost use Rattle.direct_memory.specs.Tables.{source_places};
ghost use Rattle.std.specs.Option.{option_map};

use super::Memory;
use crate::words::{Region, have_32_bits};

impl Memory {
    /// How many sources there are.
    pub fn source_count(&self) -> usize
        ensures { result ≡ length (held self.now).sources }
    {
        self.numbers.sources.len()
    }

    /// The bytes of a source, or nothing where there is no such source.
    pub fn source_size(&self, source: usize) -> Option<u64>
        ensures answer { result ≡ source_size source (held self.now).sources }
        ensures sound { Sound (held self.now).sources }
    {
        have_32_bits(&self.words);
        let place = self.numbers.sources.get(source)?;
        Some(u64::from(place.size))
    }

    /// Where the words of a source lie.
    pub(super) fn source_region(&self, source: usize) -> Option<Region>
        ensures { MatchOption result (length (source_places self.now.numbers.sources) ≤ source) (SourceLies self.now source) }
    {
        let place = self.numbers.sources.get(source)?;
        // By `as`: Rust has no `From` of 32 bits into a usize, and `try_from` would add a failure that there is not.
        Some(Region {
            start: place.start,
            size: place.size.div_ceil(4) as usize,
        })
    }

    /// The words of a source, or nothing where there is no such source.
    pub fn source(&self, source: usize) -> Option<&[u32]>
        ensures { option_map (λ x. x.now) result ≡ (if nat_lt source (length (held self.now).sources) then Some (slice_index_or (held self.now).sources source no_source).words else None) }
    {
        let region = self.source_region(source)?;
        Some(region.of(&self.words))
    }

    /// Writes one word of a source, or says that there is none, as the device interface has it.
    pub fn store(&mut self, source: usize, word: usize, value: u32) -> bool
        ensures answer { result ≡ has_word source word (held self.old) }
        ensures after { held self.new ≡ (if has_word source word (held self.old) then replaced source word value (held self.old) else held self.old) }
    {
        let Some(region) = self.source_region(source) else {
            return false;
        };
        if word >= region.size {
            return false;
        }
        self.words[region.start + word] = value;
        true
    }
}
