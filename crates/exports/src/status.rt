// Why a call is not carried out, and the status that C has of it, since C has no Result.
ghost use Rattle.exports.specs.Status.{status_of, status_told, told};
ghost use Rattle.exports.specs.declared.status.Failure.TheVariants.{Refused};
ghost use Rattle.std.specs.Prelude.{◌≡◌};

use command::refusal::Refusal;

/// The status where an entry reads outside its window.
pub const OUTSIDE_WINDOW: u32 = 64;

/// The status where an offset is 4,294,967,296 or more, so that there is no entry.
pub const WIDE_OFFSET: u32 = 65;

/// Why a call is not carried out.
// Not one enum with that of frame_exports: this crate links alone, and each has failures that the other has not.
#[derive(Clone, Copy)]
pub enum Failure {
    /// The library refuses it.
    Refused(Refusal),
    /// An entry reads outside its window.
    OutsideWindow,
    /// An offset is 4,294,967,296 or more, so that there is no entry.
    WideOffset,
}

impl From<Refusal> for Failure {
    ghost from_gives = { λ refusal failure. failure ≡ Refused refusal };

    fn from(refusal: Refusal) -> Failure {
        Failure::Refused(refusal)
    }
}

/// The status that a call answers: the refusal's number, or one that no refusal has.
impl From<Failure> for u32 {
    ghost from_gives = { λ failure status. status ≡ status_of failure };

    fn from(failure: Failure) -> u32 {
        match failure {
            Failure::Refused(reason) => u32::from(reason.number()),
            Failure::OutsideWindow => OUTSIDE_WINDOW,
            Failure::WideOffset => WIDE_OFFSET,
        }
    }
}

/// Writes what was found, and answers status 0; else answers that of the failure and writes nothing.
pub fn give<T: Copy>(found: Result<T, Failure>, out: &mut T) -> u32
    ensures status { result ≡ status_told found }
    ensures written { out.new ≡ told found out.old }
{
    match found {
        Ok(value) => {
            *out = value;
            0
        }
        Err(failure) => u32::from(failure),
    }
}
