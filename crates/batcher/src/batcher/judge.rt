ghost use Rattle.std.specs.Prelude.{◌≡◌, ℕ, ◌+◌, ◌-◌, ◌^◌, ◌<◌, ◌≤◌, length, take, IfOk, Ok, Err};
ghost use Rattle.batcher.specs.Judged.{chosen, frame_terms, joined, judged, prepared, wanted};
ghost use Rattle.batcher.specs.Keys.{found};
ghost use Rattle.batcher.specs.View.{batching};
ghost use Rattle.command.specs.Family.{is_indexed, src_stride};
ghost use Rattle.entry.specs.Entries.{packed};
ghost use Rattle.places.specs.Placed.{placed};

use super::super::records::{BatchKey, DrawIndirectValidationBatch, DrawRequest, IndirectDraw};
use super::super::search::find;
use super::super::tables::Tables;
use super::super::terms::FrameTerms;
use super::DrawBatcher;
use command::family::{DrawCommandFamily, check_arguments, get_dst_stride_of_indirect_args};
use command::refusal::Refusal;
use entry::metadata::MetadataEntry;
use entry::window::calculate_src_offsets;
use places::current::CurrentEntry;
use places::subrange::{fits_current, next_place};

/// What is known of a draw before its batch is.
#[derive(Clone, Copy)]
pub struct Prepared {
    pub family: DrawCommandFamily,
    pub key: BatchKey,
    pub place: CurrentEntry,
    pub entry: MetadataEntry,
    /// The buffer to ask for, where the place needs one that may not be there yet.
    pub asks: Option<usize>,
    /// The current place once the draw stands.
    pub current: CurrentEntry,
}

/// What an accepted request writes.
#[derive(Clone, Copy)]
pub struct Chosen {
    pub draw: IndirectDraw,
    pub batch: DrawIndirectValidationBatch,
    pub asks: Option<usize>,
    pub current: CurrentEntry,
}

impl Prepared {
    fn chosen(&self, batch: usize, rank: u32, record: DrawIndirectValidationBatch) -> Chosen
        ensures { result ≡ chosen self.now batch rank «record» }
    {
        Chosen {
            draw: IndirectDraw {
                family: self.family,
                place: self.place,
                entry: self.entry,
                batch,
                rank,
            },
            batch: record,
            asks: self.asks,
            current: self.current,
        }
    }

    // The draw joins the batch of its key, or opens one. A count that no recording has led to is refused.
    #[inline(always)]
    fn join(
        &self,
        recorded: usize,
        batches: &[DrawIndirectValidationBatch],
    ) -> Result<Chosen, Refusal>
        requires { recorded ≤ length batches.now }
        ensures value { result ≡ joined self.now recorded batches.now (found self.now.key (take recorded batches.now)) }
        ensures within { IfOk result (λ c. (c.draw.batch < length batches.now) × (c.current ≡ self.now.current)) }
    {
        match find(&batches[..recorded], &self.key) {
            Some(i) => {
                let batch = batches[i];
                let count = batch.count.checked_add(1).ok_or(Refusal::TableFull)?;
                let joined = DrawIndirectValidationBatch { count, ..batch };
                Ok(self.chosen(i, batch.count, joined))
            }
            None => {
                if recorded >= batches.len() {
                    return Err(Refusal::TableFull);
                }
                let opened = DrawIndirectValidationBatch {
                    key: self.key,
                    count: 1,
                    ..DrawIndirectValidationBatch::empty()
                };
                Ok(self.chosen(recorded, 0, opened))
            }
        }
    }
}

// The entry of a draw whose window and place are known. Its offsets are small, so that there is an entry; whoever
// packs one by another name shares no more with it than the call of `new`.
#[inline(always)]
fn entry_for(
    request: &DrawRequest,
    family: DrawCommandFamily,
    src_offset: u64,
    dst_offset: u64,
) -> MetadataEntry
    requires src { src_offset < 2 ^ 32 }
    requires dst { dst_offset < 2 ^ 32 }
    ensures { result ≡ packed (is_indexed family) src_offset dst_offset request.now.limit request.now.instances }
{
    let entry = MetadataEntry::new(
        family.is_indexed(),
        src_offset,
        dst_offset,
        request.limit,
        request.instances,
    );
    entry.unwrap()
}

impl DrawBatcher {
    // Where the next draw goes. There is always such a place, since no more buffers were opened than draws recorded.
    #[inline(always)]
    fn place_for(&self, stride: u64, buffer_size: u64) -> CurrentEntry
        requires { self.now.draws < 2 ^ 64 - 1 }
        ensures value { result ≡ placed self.now.current stride buffer_size }
        ensures within { stride ≤ buffer_size → result.offset + stride ≤ buffer_size }
        ensures reached { result.index ≤ self.now.draws }
    {
        next_place(self.current, stride, buffer_size).unwrap()
    }

    // The draw's place, window, entry and key. No supply is asked: where the place is follows from the sizes alone.
    #[inline(always)]
    fn prepare(
        &self,
        terms: &FrameTerms,
        request: &DrawRequest,
        family: DrawCommandFamily,
        size: u64,
    ) -> Prepared
        requires inside { request.now.offset + src_stride family ≤ size }
        requires small { self.now.draws < 2 ^ 64 - 1 }
        ensures reached { result.current.index ≤ self.now.draws }
        ensures value { result ≡ prepared (frame_terms terms.now) self.now.current (wanted request.now family size) }
    {
        let room = terms.sizes.buffer();
        let stride = get_dst_stride_of_indirect_args(family);
        let place = self.place_for(stride, room);
        let split = calculate_src_offsets(size, &terms.settings, request.offset);
        Prepared {
            family,
            key: BatchKey {
                source: request.source,
                window: split.dynamic_offset,
                destination: place.index,
            },
            place,
            entry: entry_for(request, family, split.offset, place.offset),
            asks: (!fits_current(self.current, stride, room)).then_some(place.index),
            current: CurrentEntry {
                index: place.index,
                offset: place.offset + stride,
            },
        }
    }

    /// What the request would write, or why it is turned down, before any supply is asked.
    pub(super) fn judge(
        &self,
        tables: &Tables,
        terms: &FrameTerms,
        request: &DrawRequest,
    ) -> Result<Chosen, Refusal>
        ensures value { result ≡ judged (frame_terms terms.now) (batching self.now) tables.now.draws.now tables.now.batches.now request.now }
        ensures within { IfOk result (λ c. (c.draw.batch < length tables.now.batches.now) × (self.now.draws < length tables.now.draws.now) × (c.current.index ≤ self.now.draws)) }
    {
        let family = DrawCommandFamily::try_from(request.kind)?;
        let size = request.size.ok_or(Refusal::NoSuchSource)?;
        check_arguments(family, size, request.offset)?;
        if self.draws >= tables.draws.len() || self.batches > tables.batches.len() {
            return Err(Refusal::TableFull);
        }
        let prepared = self.prepare(terms, request, family, size);
        prepared.join(self.batches, tables.batches)
    }
}
