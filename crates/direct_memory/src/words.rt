ghost use Rattle.std.specs.Prelude.{◌≡◌, ℕ, ◌+◌, ◌^◌, ◌<◌, ◌≤◌, length, replicate, slice_index};
ghost use Rattle.direct_memory.specs.Regions.{Inside, words_of};
ghost use Rattle.std.proofs.lemmas.List.Edits.{sets};

/// Words of a longer list, from `start` on.
#[derive(Clone, Copy, PartialEq, Eq)]
pub struct Region {
    pub start: usize,
    pub size: usize,
}

// That a region lies inside is said of the words that it is used with, which no type of its own could know.
impl Region {
    /// One past the last word.
    pub(crate) fn end(self) -> usize
        requires { self.start + self.size < 2 ^ 64 }
        ensures { result ≡ self.start + self.size }
    {
        self.start + self.size
    }

    /// The words of the region.
    pub(crate) fn of(self, words: &[u32]) -> &[u32]
        requires { Inside self words.now }
        ensures { result.now ≡ words_of self words.now }
    {
        &words[self.start..self.end()]
    }

    /// Zeros the region.
    pub(crate) fn zero(self, words: &mut [u32])
        requires { Inside self words.old }
        ensures { words.new ≡ sets words.old self.start (replicate self.size 0) }
    {
        words[self.start..self.end()].fill(0);
    }

    /// Copies the region to a place, where it may lie over itself.
    pub(crate) fn copy(self, words: &mut [u32], to: usize)
        requires source { Inside self words.old }
        requires target { to + self.size ≤ length words.old }
        ensures { words.new ≡ sets words.old to (words_of self words.old) }
    {
        words.copy_within(self.start..self.end(), to);
    }
}

/// Writes values from a place on.
pub(crate) fn write(words: &mut [u32], at: usize, values: &[u32])
    requires { at + length values.now ≤ length words.old }
    ensures { words.new ≡ sets words.old at values.now }
{
    words[at..at + values.len()].copy_from_slice(values);
}

/// Says of every word what its type says, that it has 32 bits: a proof can use that only where a call has taken the list.
pub(crate) fn have_32_bits(words: &[u32])
    ensures { (i : ℕ) → slice_index words.now i < 2 ^ 32 }
{
    let _ = words.is_empty();
}
