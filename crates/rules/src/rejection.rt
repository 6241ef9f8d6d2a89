// Why a rule or a literal was not added to a table.
ghost use Rattle.std.specs.Prelude.{◌≡◌, Some};
ghost use Rattle.rules.specs.Rejected.{told_rejection};
ghost use Rattle.rules.specs.declared.rejection.Rejection.TheVariants.{Unfit, OutOfMemory};

use base::Misfit;
use std::alloc::AllocError;
use std::error::Error;
use std::fmt;

// Not one generic type with `LoadError`: its `From` of any cause would overlap with that of `AllocError`.
#[derive(Clone, Copy, PartialEq, Eq, Debug)]
pub enum Rejection {
    Unfit(Misfit),
    OutOfMemory,
}

impl From<Misfit> for Rejection {
    ghost from_gives = { λ m e. e ≡ Unfit m };

    fn from(misfit: Misfit) -> Rejection {
        Rejection::Unfit(misfit)
    }
}

impl From<AllocError> for Rejection {
    ghost from_gives = { λ _ e. e ≡ OutOfMemory };

    fn from(_error: AllocError) -> Rejection {
        Rejection::OutOfMemory
    }
}

impl fmt::Display for Rejection {
    ghost output = { λ e. Some (told_rejection e) };

    fn fmt<W: fmt::Write>(&self, f: &mut fmt::Formatter<W>) -> fmt::Result {
        match self {
            Self::Unfit(Misfit::NoForm) => write!(f, "not expected there"),
            Self::Unfit(Misfit::OutOfRange) => write!(f, "out of range"),
            Self::Unfit(Misfit::NotRising) => write!(f, "not above the one before"),
            Self::Unfit(Misfit::PastLimit) => write!(f, "past a limit"),
            Self::OutOfMemory => write!(f, "memory allocation failed"),
        }
    }
}

impl Error for Rejection {}
