ghost use Rattle.std.specs.Prelude.{◌≡◌, ℕ, Bool, true, is_some, IfSome};
ghost use Rattle.command.specs.Lawful.{lawful_sizes};

/// How large pool buffers and staging blocks are, proved to fit one another.
#[derive(Clone, Copy)]
pub struct Sizes {
    /// Bytes of a destination or metadata buffer.
    buffer: u64,
    /// The most bytes of a staging block.
    block: u64,
    ghost ok: { lawful_sizes buffer block ≡ true },
}

impl Sizes {
    /// The sizes that wgpu-core uses.
    pub fn base() -> Sizes
        ensures { (result.buffer ≡ 1048560) × (result.block ≡ 67108864) }
    {
        Sizes {
            buffer: 1_048_560,
            block: 67_108_864,
        }
    }

    /// Other sizes, or nothing where they are not whole entries or do not fit one another.
    pub fn new(buffer: u64, block: u64) -> Option<Sizes>
        ensures accepted { is_some result ≡ lawful_sizes buffer block }
        ensures value { IfSome result (λ s. (s.buffer ≡ buffer) × (s.block ≡ block)) }
    {
        let whole = buffer % 16 == 0 && block % 16 == 0;
        if !whole || buffer < 32 || buffer > 1_048_560 || block < buffer || block > 67_108_864 {
            return None;
        }
        Some(Sizes { buffer, block })
    }

    pub fn buffer(&self) -> u64
        ensures { result ≡ self.now.buffer }
    {
        self.buffer
    }

    pub fn block(&self) -> u64
        ensures { result ≡ self.now.block }
    {
        self.block
    }
}
