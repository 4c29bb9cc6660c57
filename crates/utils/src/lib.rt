// Indices named once each: a guard over mark bytes, and the distinct indices of a list.
#![tactic(auto)]

ghost use Rattle.std.specs.Prelude.{◌≡◌, ℕ, ◌≤◌, length, take, if◌then◌else◌, Some, None, IfSome, slice_set};
ghost use Rattle.utils.specs.Firsts.{firsts, FirstNamed};
ghost use Rattle.utils.specs.Marks.{wiped, insertion};
ghost use Rattle.utils.specs.Unique.{counted, fronted, fits};

// No iterator, as the Rust's is: an index may be past the marks, so that each item would be an `Option`, and a loop
// over such items would be no plainer than one that calls `insert`.
/// Tells which indices were named already, by one lent byte an index; wipes the bytes when it goes.
pub struct UniqueIndex<'a> {
    marks: &'a mut [u8],
}

impl Drop for UniqueIndex<'_> {
    fn drop(self)
        ensures { self.exit.0.now ≡ wiped self.entry.marks.now }
    {
        self.marks.fill(0);
        let UniqueIndex { marks: _ } = self;
    }
}

impl<'a> UniqueIndex<'a> {
    /// Nothing is named yet, whatever the bytes held.
    pub fn new(marks: &'a mut [u8]) -> UniqueIndex<'a>
        ensures named { result.marks.ghost_name ≡ marks.entry.ghost_name }
        ensures clear { result.marks.now ≡ wiped marks.old }
    {
        marks.fill(0);
        UniqueIndex { marks }
    }

    /// Names `index`: whether that is the first time, or `None` where it is past the marks.
    pub fn insert(&mut self, index: usize) -> Option<bool>
        ensures named { self.new.marks.ghost_name ≡ self.old.marks.ghost_name }
        ensures after { self.new.marks.now ≡ slice_set self.old.marks.now index 1 }
        ensures answer { result ≡ insertion self.old.marks.now index }
    {
        let marks = &mut *self.marks;
        let mark = *marks.get(index)?;
        marks[index] = 1;
        Some(mark == 0)
    }
}

/// Writes the distinct indices to the front of `out`, those that it has room for, and answers how many they are in
/// all, or `None` where one is past the marks.
fn write(indices: &[usize], marks: &mut [u8], out: &mut [usize]) -> Option<usize>
    ensures marks { marks.new ≡ wiped marks.old }
    ensures answer { result ≡ counted (length marks.old) indices.now }
    ensures out { IfSome result (λ n. n ≤ length out.old → out.new ≡ fronted (firsts indices.now) out.old) }
{
    let mut seen = UniqueIndex::new(marks);
    // counts past the end of `out` too, so that it is no place of an iterator over `out`
    let mut found = 0;
    for index in indices {
        if seen.insert(*index)? {
            if found < out.len() {
                out[found] = *index;
            }
            found += 1;
        }
    }
    Some(found)
}

/// Writes the distinct indices in first-named order to the front of `out` and answers how many they are;
/// `None`, and `out` as it was, where an index is past the marks or `out` is too short. The marks are clear after.
pub fn unique(indices: &[usize], marks: &mut [u8], out: &mut [usize]) -> Option<usize>
    ensures marks { marks.new ≡ wiped marks.old }
    ensures answer { result ≡ (if fits (length marks.old) indices.now out.old then Some (length (firsts indices.now)) else None) }
    ensures out { out.new ≡ (if fits (length marks.old) indices.now out.old then fronted (firsts indices.now) out.old else out.old) }
    ensures law { (n : ℕ) → result ≡ Some n → FirstNamed indices.now (take n out.new) }
{
    // counted alone first, with no room to write to, so that `out` stays as it was where the answer is `None`
    let found = write(indices, &mut *marks, &mut [])?;
    if found > out.len() {
        return None;
    }
    write(indices, marks, out)
}
