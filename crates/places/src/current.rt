/// A place: the index of a buffer, and a byte offset in it.
// No method moves it past so many bytes: that would ask its caller for a sum that fits.
#[derive(Clone, Copy, Default, PartialEq, Eq)]
pub struct CurrentEntry {
    pub index: usize,
    pub offset: u64,
}
