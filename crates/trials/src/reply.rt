// What a line is answered where nothing is refused; not that of `lines`, so that each tries what the other stands on.
use std::fmt;

#[derive(Clone, Copy)]
pub enum Reply {
    Loaded,
    Passed,
    // Whether the atom is in the plan.
    Told(bool),
}

impl fmt::Display for Reply {
    fn fmt<W: fmt::Write>(&self, f: &mut fmt::Formatter<W>) -> fmt::Result {
        match self {
            Reply::Loaded => write!(f, "loaded"),
            Reply::Passed => write!(f, "passed"),
            Reply::Told(true) => write!(f, "in"),
            Reply::Told(false) => write!(f, "out"),
        }
    }
}
