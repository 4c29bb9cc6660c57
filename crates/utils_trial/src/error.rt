ghost use Rattle.utils_trial.specs.declared.error.GroupError.TheVariants.{Memory};
ghost use Rattle.std.specs.Prelude.{◌≡◌};

use std::alloc::AllocFailed;

/// Why a group is not put together.
#[derive(Clone, Copy, PartialEq, Eq)]
pub enum GroupError {
    /// A destination is past the marks.
    NoMark,
    /// There is no memory for the list.
    Memory,
}

impl<T: Drop> From<AllocFailed<T>> for GroupError {
    ghost from_gives = { λ _ error. error ≡ Memory };

    fn from(_failed: AllocFailed<T>) -> GroupError {
        GroupError::Memory
    }
}
