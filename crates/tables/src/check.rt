ghost use Rattle.std.specs.Prelude.{◌≡◌};
ghost use Rattle.tables.specs.declared.check.CheckError.TheVariants.{NoMemory};

use crate::place::Fault;
use std::alloc::AllocError;

/// Why a check under rules of the kind `R` gives nothing.
#[derive(Clone, Copy, PartialEq, Eq, Debug)]
pub enum CheckError<R> {
    /// There is no memory for what the check needs.
    NoMemory,
    /// A rule is broken, first at this place.
    Refused(Fault<R>),
}

impl<R> From<AllocError> for CheckError<R> {
    ghost from_gives = { λ _ r. r ≡ NoMemory };

    fn from(_e: AllocError) -> CheckError<R> {
        CheckError::NoMemory
    }
}
