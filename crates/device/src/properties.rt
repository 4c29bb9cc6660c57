/// What a device was made with; nothing changes it.
// Numbers and no `Settings`: a device says what it has, and whoever uses it judges that.
#[derive(Clone, Copy, PartialEq, Eq)]
pub struct Properties {
    /// Windows over sources begin at multiples of this many bytes.
    pub alignment: u64,
    /// The most bytes of a window.
    pub largest_binding: u64,
    /// The bytes of each pool buffer.
    pub buffer_size: u64,
    /// Whether draws may name a first instance other than 0.
    pub first_instances: bool,
}
