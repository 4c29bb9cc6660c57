ghost use Rattle.std.specs.Prelude.{◌≡◌, ◌+◌};

/// The arguments of a draw that its limits are about, of vertices in order or by an index buffer.
#[derive(Clone, Copy, PartialEq, Eq)]
pub struct DrawArgs {
    /// How many vertices, or indices of an indexed draw.
    pub count: u32,
    pub instances: u32,
    /// The first vertex or index.
    pub first: u32,
    pub first_instance: u32,
}

impl DrawArgs {
    /// One past the last vertex or index that the draw names.
    pub fn last(&self) -> u64
        ensures { result ≡ self.now.first + self.now.count }
    {
        u64::from(self.first) + u64::from(self.count)
    }

    /// One past the last instance that the draw names.
    pub fn last_instance(&self) -> u64
        ensures { result ≡ self.now.first_instance + self.now.instances }
    {
        u64::from(self.first_instance) + u64::from(self.instances)
    }
}
