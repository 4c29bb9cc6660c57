use super::records::{DrawIndirectValidationBatch, IndirectDraw};

/// The two tables that a caller lends to a batcher; their lengths are what there is room for.
// That they stay the tables that were lent stands in two clauses wherever they are handed on, one for each reference: a
// word for both would have to be opened at each use.
#[derive(Drop)]
pub struct Tables<'a> {
    pub draws: &'a mut [IndirectDraw],
    pub batches: &'a mut [DrawIndirectValidationBatch],
}
