ghost use Rattle.std.specs.Prelude.{◌≡◌};
ghost use Rattle.batcher.specs.Keys.{Finds, found, has_key};

use super::records::{BatchKey, DrawIndirectValidationBatch};

impl BatchKey {
    /// Whether a batch has this key: the derived `==`, under a name that says of what.
    pub fn is_of(&self, batch: &DrawIndirectValidationBatch) -> bool
        ensures { result ≡ has_key self.now batch.now }
    {
        batch.key == *self
    }
}

/// The position of the first batch with the key, or nothing where none has it.
pub fn find(batches: &[DrawIndirectValidationBatch], key: &BatchKey) -> Option<usize>
    ensures value { result ≡ found key.now batches.now }
    ensures finds { Finds key.now batches.now result }
{
    batches.iter().position(|batch| key.is_of(batch))
}
