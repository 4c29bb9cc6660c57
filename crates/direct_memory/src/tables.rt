ghost use Rattle.std.specs.Prelude.{◌≡◌, ℕ, ◌<◌, ◌≤◌, [], ◌∷◌, ◌++◌, length, slice_get};

use super::layout::{PoolSlot, SourcePlace};

// No `ArrayVec`s, since the numbers of a device are `Copy`, and no `impl Model`: a struct that holds one gets no proof
// where it is passed by value and used again. Nor is there one table for both, over the type of an item: a generic
// struct with an array of it would owe its size at each call.
/// The places of sources by their numbers, at most 64 of them.
#[derive(Clone, Copy)]
pub(crate) struct SourcePlaces {
    items: [SourcePlace; 64],
    len: usize,
    ghost room: { length items ≡ 64 },
    ghost few: { len ≤ 64 },
}

impl SourcePlaces {
    ghost use Rattle.direct_memory.specs.Tables.{source_places};

    /// A table of none.
    pub(crate) fn new() -> SourcePlaces
        ensures { source_places result ≡ [] }
    {
        SourcePlaces {
            items: [SourcePlace::default(); 64],
            len: 0,
        }
    }

    /// How many there are.
    pub(crate) fn len(&self) -> usize
        ensures { result ≡ length (source_places self.now) }
    {
        self.len
    }

    /// The place of a source, or nothing where there is no such source.
    pub(crate) fn get(&self, source: usize) -> Option<SourcePlace>
        ensures { result ≡ slice_get (source_places self.now) source }
    {
        if source >= self.len {
            return None;
        }
        Some(self.items[source])
    }

    /// Adds the place of one more source.
    pub(crate) fn push(&mut self, place: SourcePlace)
        requires { length (source_places self.old) < 64 }
        ensures { source_places self.new ≡ source_places self.old ++ place ∷ [] }
    {
        self.items[self.len] = place;
        self.len += 1;
    }
}

/// The slots of pool buffers in the order of making, at most 512 of them.
#[derive(Clone, Copy)]
pub(crate) struct PoolSlots {
    items: [PoolSlot; 512],
    len: usize,
    ghost room: { length items ≡ 512 },
    ghost few: { len ≤ 512 },
}

impl PoolSlots {
    ghost use Rattle.direct_memory.specs.Tables.{pool_slots};

    /// A table of none.
    pub(crate) fn new() -> PoolSlots
        ensures { pool_slots result ≡ [] }
    {
        PoolSlots {
            items: [PoolSlot::default(); 512],
            len: 0,
        }
    }

    /// How many there are.
    pub(crate) fn len(&self) -> usize
        ensures { result ≡ length (pool_slots self.now) }
    {
        self.len
    }

    /// Adds the slot of one more buffer.
    pub(crate) fn push(&mut self, slot: PoolSlot)
        requires { length (pool_slots self.old) < 512 }
        ensures { pool_slots self.new ≡ pool_slots self.old ++ slot ∷ [] }
    {
        self.items[self.len] = slot;
        self.len += 1;
    }
}
