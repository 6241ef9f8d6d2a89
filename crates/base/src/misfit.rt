// Why one word does not fit where it stands.
ghost use Rattle.std.specs.Prelude.{◌≡◌};
ghost use Rattle.base.specs.Refusals.{refused_at};

use crate::Refusal;

#[derive(Clone, Copy, PartialEq, Eq, Debug)]
pub enum Misfit {
    // No form has such a word there.
    NoForm,
    // It names what is not there: an atom, a place or a head.
    OutOfRange,
    // It is not above the word before it in a rising run.
    NotRising,
    // It passes a limit.
    PastLimit,
}

impl Misfit {
    // The refusal of the word at a place.
    pub fn at(self, place: u32) -> Refusal
        ensures { result ≡ refused_at self place }
    {
        match self {
            Misfit::NoForm => Refusal::NoForm { place },
            Misfit::OutOfRange => Refusal::OutOfRange { place },
            Misfit::NotRising => Refusal::NotRising { place },
            Misfit::PastLimit => Refusal::PastLimit { place },
        }
    }
}
