/// A batch, by the buffer that it writes to.
#[derive(Clone, Copy)]
pub struct Batch {
    pub destination: usize,
    pub count: u32,
}

// The marks are an array in a plain struct: a later layer that uses this form allocates nothing.
/// What keeps marks between groups.
#[derive(Drop)]
pub struct Groups {
    pub marks: [u8; 256],
    pub groups: u64,
}
