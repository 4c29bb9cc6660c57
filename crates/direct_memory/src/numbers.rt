ghost use Rattle.std.specs.Prelude.{◌≡◌, ℕ, ◌*◌, ◌%◌, ◌^◌, ◌<◌, ◌≤◌, true, length};
ghost use Rattle.direct_memory.specs.Layouts.{laid_sources};
ghost use Rattle.direct_memory.specs.Tables.{pool_slots, source_places};

use super::tables::{PoolSlots, SourcePlaces};
use device::properties::Properties;

/// All that a direct device keeps beside its words. The words are the sources, one after another, then staging, then one
/// word for each 16 bytes of staging, then the pool. Staging blocks lie one after another too; the words behind staging
/// have, for each block, the byte of staging at which it ends, and its use in the low four bits.
#[derive(Clone, Copy)]
pub struct Numbers {
    pub(crate) sources: SourcePlaces,
    /// The first word of staging.
    pub(crate) staging_start: usize,
    /// The bytes of staging.
    pub(crate) staging_size: usize,
    /// How many blocks there are, and how many bytes they take. A block has its bookkeeping in the words, and no list here.
    pub(crate) blocks: usize,
    pub(crate) used: usize,
    /// The pool buffers in the order of making.
    pub(crate) pool: PoolSlots,
    /// How many pool buffers there can be in all.
    pub(crate) most: usize,
    pub(crate) properties: Properties,
    ghost laid: { laid_sources 0 (source_places sources) staging_start ≡ true },
    ghost whole: { staging_size % 16 ≡ 0 },
    ghost small: { staging_size < 2 ^ 32 },
    ghost fits: { used ≤ staging_size },
    ghost listed: { 16 * blocks ≤ used },
    ghost fewer: { length (pool_slots pool) ≤ most },
    ghost bounded: { most ≤ 512 },
}
