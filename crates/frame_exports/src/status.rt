ghost use Rattle.frame_exports.specs.Status.{call_status, failure_status};
ghost use Rattle.frame_exports.specs.declared.status.Failure.TheVariants.{NoMemory, Refused};
ghost use Rattle.std.specs.Prelude.{◌≡◌};

use command::refusal::Refusal;
use std::alloc::AllocError;

// What a call answers where it is neither carried out, which is 0, nor refused, which is the refusal's number.

/// The sizes of pool buffers and staging blocks are not lawful.
pub const UNLAWFUL_SIZES: u32 = 66;

/// An output is too short for what there is to write.
pub const SHORT_OUTPUT: u32 = 67;

/// There is too little memory for the work.
pub const NO_MEMORY: u32 = 68;

/// Why a call is not carried out.
#[derive(Clone, Copy)]
pub enum Failure {
    /// The library refuses it.
    Refused(Refusal),
    /// The sizes of pool buffers and staging blocks are not lawful.
    UnlawfulSizes,
    /// An output is too short for what there is to write.
    ShortOutput,
    /// There is too little memory for the work.
    NoMemory,
}

impl From<Refusal> for Failure {
    ghost from_gives = { λ refusal failure. failure ≡ Refused refusal };

    fn from(refusal: Refusal) -> Failure {
        Self::Refused(refusal)
    }
}

impl From<AllocError> for Failure {
    ghost from_gives = { λ _ failure. failure ≡ NoMemory };

    fn from(_error: AllocError) -> Failure {
        Self::NoMemory
    }
}

/// The status that a call answers: the refusal's number, or one that no refusal has.
impl From<Failure> for u32 {
    ghost from_gives = { λ failure status. status ≡ failure_status failure };

    fn from(failure: Failure) -> u32 {
        match failure {
            Failure::Refused(reason) => u32::from(reason.number()),
            Failure::UnlawfulSizes => UNLAWFUL_SIZES,
            Failure::ShortOutput => SHORT_OUTPUT,
            Failure::NoMemory => NO_MEMORY,
        }
    }
}

/// The status of a call as a host in C sees it: 0 where it is carried out, or the failure's.
pub fn status_of(outcome: Result<(), Failure>) -> u32
    ensures { result ≡ call_status outcome }
{
    outcome.map_or_else(u32::from, |()| 0)
}
