// Why a line gives no call.
ghost use Rattle.std.specs.Prelude.{◌≡◌, Some};
ghost use Rattle.lines.specs.Calls.{told_error};
ghost use Rattle.lines.specs.declared.error.LineError.TheVariants.{OutOfMemory};

use std::alloc::AllocFailed;
use std::error::Error;
use std::fmt;

// Of its own, as the errors of tables and of loading are: a `From` of any cause would overlap with that of want of memory.
#[derive(Clone, Copy, PartialEq, Eq, Debug)]
pub enum LineError {
    NotACall,
    OutOfMemory,
}

impl<T: Drop> From<AllocFailed<T>> for LineError {
    ghost from_gives = { λ _ e. e ≡ OutOfMemory };

    fn from(_error: AllocFailed<T>) -> LineError {
        LineError::OutOfMemory
    }
}

impl fmt::Display for LineError {
    ghost output = { λ e. Some (told_error e) };

    fn fmt<W: fmt::Write>(&self, f: &mut fmt::Formatter<W>) -> fmt::Result {
        match self {
            Self::NotACall => write!(f, "not a call"),
            Self::OutOfMemory => write!(f, "memory allocation failed"),
        }
    }
}

impl Error for LineError {}
