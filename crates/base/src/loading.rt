// Why words were not loaded.
ghost use Rattle.std.specs.Prelude.{◌≡◌, Some};
ghost use Rattle.base.specs.Loading.{told_error};
ghost use Rattle.base.specs.declared.loading.LoadError.TheVariants.{Refused, OutOfMemory};

use crate::Refusal;
use std::alloc::AllocError;
use std::error::Error;
use std::fmt;

#[derive(Clone, Copy, PartialEq, Eq, Debug)]
pub enum LoadError {
    Refused(Refusal),
    OutOfMemory,
}

impl From<Refusal> for LoadError {
    ghost from_gives = { λ f e. e ≡ Refused f };

    fn from(refusal: Refusal) -> LoadError {
        LoadError::Refused(refusal)
    }
}

impl From<AllocError> for LoadError {
    ghost from_gives = { λ _ e. e ≡ OutOfMemory };

    fn from(_error: AllocError) -> LoadError {
        LoadError::OutOfMemory
    }
}

impl fmt::Display for LoadError {
    ghost output = { λ e. Some (told_error e) };

    fn fmt<W: fmt::Write>(&self, f: &mut fmt::Formatter<W>) -> fmt::Result {
        match self {
            Self::Refused(refusal) => write!(f, "{refusal}"),
            Self::OutOfMemory => write!(f, "memory allocation failed"),
        }
    }
}

impl Error for LoadError {}
