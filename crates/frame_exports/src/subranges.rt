ghost use Rattle.std.specs.Prelude.{◌≡◌, ◌≤◌, ◌++◌, length, drop, if◌then◌else◌, None, Ok, Err, nat_le};
ghost use Rattle.frame_exports.specs.Subranges.{place_told, places_told};
ghost use Rattle.places.specs.Counts.{counts};

use super::status::Failure;
use command::refusal::Refusal;
use places::counted::Counted;
use places::current::CurrentEntry;
use places::subrange::get_subrange_impl;

/// Where something was placed.
// C sees the record, so that its status is a number.
#[repr(C)]
#[derive(Clone, Copy)]
pub struct Place {
    /// 0, or the number of the refusal; the other fields are then 0.
    pub status: u64,
    /// The number of the buffer.
    pub index: u64,
    /// The byte in the buffer.
    pub offset: u64,
}

/// An answer as a host is told it.
impl From<Result<CurrentEntry, Refusal>> for Place {
    ghost from_gives = { λ answer place. place ≡ place_told answer };

    fn from(answer: Result<CurrentEntry, Refusal>) -> Place {
        match answer {
            Ok(place) => Place {
                status: 0,
                index: place.index as u64,
                offset: place.offset,
            },
            Err(refusal) => Place {
                status: u64::from(refusal.number()),
                index: 0,
                offset: 0,
            },
        }
    }
}

/// Places sizes one after another in buffers of `buffer_size` bytes, of which there are `buffers`. Each size has a
/// place of its own in the output, which is refused for want of a buffer alone. Where the output has fewer places
/// than there are sizes, nothing is written.
#[tactic(auto, unfolding(crate::specs::Subranges::places_told))]
pub fn put_places(
    sizes: &[u64],
    buffer_size: u64,
    buffers: usize,
    places: &mut [Place],
) -> Result<(), Failure>
    ensures outcome { result ≡ (if nat_le (length sizes.now) (length places.old) then Ok tt else Err Failure.ShortOutput) }
    ensures written { places.new ≡ (if nat_le (length sizes.now) (length places.old) then places_told buffer_size sizes.now None (counts 0 buffers) ++ drop (length sizes.now) places.old else places.old) }
{
    if sizes.len() > places.len() {
        return Err(Failure::ShortOutput);
    }
    let mut supply = Counted::new(buffers);
    let mut current = None;
    // By index: after a `zip` with `iter_mut` a proof does not know what was written.
    for (i, size) in sizes.iter().enumerate() {
        let answer = get_subrange_impl(&mut supply, &mut current, *size, buffer_size);
        places[i] = Place::from(answer);
    }
    Ok(())
}
