ghost use Rattle.std.specs.Prelude.{◌≡◌, ℕ, ◌+◌, ◌*◌, ◌/◌, ◌≤◌, true, vec_len};
ghost use Rattle.direct_memory.specs.Cells.{part};
ghost use Rattle.direct_memory.specs.Layouts.{booked};

use super::numbers::Numbers;

pub mod pool;
pub mod sources;
pub mod staging;

/// Words with the numbers that say what they hold.
#[derive(Drop)]
pub struct Memory {
    words: Vec<u32>,
    numbers: Numbers,
    ghost room: { numbers.staging_start + numbers.staging_size / 4 + numbers.staging_size / 16 + numbers.most * (numbers.properties.buffer_size / 4) ≤ vec_len words },
    ghost books: { booked 0 (part (numbers.staging_start + numbers.staging_size / 4) numbers.blocks words.items) numbers.used ≡ true },
}
