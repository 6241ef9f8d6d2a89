// Every cause for which input is refused, with the number and the value that it is known by.
ghost use Rattle.std.specs.Prelude.{◌≡◌, Some};
ghost use Rattle.base.specs.Refusals.{number_of, value_of, told};

use std::fmt;

#[derive(Clone, Copy, PartialEq, Eq, Debug)]
pub enum Refusal {
    // A word that fits no form at its place, or is missing there.
    NoForm { place: u32 },
    // Atom 0 or one above the atom count, a link to a place without node, a head bit above the heads.
    OutOfRange { place: u32 },
    // A word that is not above the one before it in a rising run.
    NotRising { place: u32 },
    // A word past a limit, or an opening word whose numbers are out of range.
    PastLimit { place: u32 },
    // The first rule that the plan does not satisfy.
    RuleNotSatisfied { rule: u32 },
    // The smallest atom of the plan that the rules do not derive from it.
    NotDerived { atom: u32 },
    NoPlan,
    // The first atom on a hold list that is no pre-assumption.
    NotPreAssumption { atom: u32 },
    // The smallest atom that the negative reduct does not settle as the plan has it.
    NotSettled { atom: u32 },
    NoHoldList,
    // An atom asked for that the rules do not have.
    NoSuchAtom { atom: u32 },
    // A buffer with less room than the call needs.
    BufferTooShort { needed: u32 },
    // A sheet with no node, or whose first node is not for the atom asked for.
    WrongRoot,
    // The first node whose atom stood earlier, or whose status is not the plan's.
    WrongNode { place: u32 },
    // The first node that its links do not support.
    Unsupported { place: u32 },
    // The first node that is not reached from the first.
    Unreached { place: u32 },
    // The first true node that lies on a cycle.
    Circular { place: u32 },
}

impl Refusal {
    // The number of the cause; no `From`, as the value is lost.
    pub fn number(&self) -> u8
        ensures { result ≡ number_of self.now }
    {
        match self {
            Refusal::NoForm { .. } => 1,
            Refusal::OutOfRange { .. } => 2,
            Refusal::NotRising { .. } => 3,
            Refusal::PastLimit { .. } => 4,
            Refusal::RuleNotSatisfied { .. } => 5,
            Refusal::NotDerived { .. } => 6,
            Refusal::NoPlan => 7,
            Refusal::NotPreAssumption { .. } => 8,
            Refusal::NotSettled { .. } => 9,
            Refusal::NoHoldList => 10,
            Refusal::NoSuchAtom { .. } => 11,
            Refusal::BufferTooShort { .. } => 12,
            Refusal::WrongRoot => 13,
            Refusal::WrongNode { .. } => 14,
            Refusal::Unsupported { .. } => 15,
            Refusal::Unreached { .. } => 16,
            Refusal::Circular { .. } => 17,
        }
    }

    // The place, rule, atom or length that is returned with the number, or 0.
    pub fn value(&self) -> u32
        ensures { result ≡ value_of self.now }
    {
        match *self {
            Refusal::NoForm { place }
            | Refusal::OutOfRange { place }
            | Refusal::NotRising { place }
            | Refusal::PastLimit { place }
            | Refusal::WrongNode { place }
            | Refusal::Unsupported { place }
            | Refusal::Unreached { place }
            | Refusal::Circular { place } => place,
            Refusal::RuleNotSatisfied { rule } => rule,
            Refusal::NotDerived { atom }
            | Refusal::NotPreAssumption { atom }
            | Refusal::NotSettled { atom }
            | Refusal::NoSuchAtom { atom } => atom,
            Refusal::BufferTooShort { needed } => needed,
            Refusal::NoPlan | Refusal::NoHoldList | Refusal::WrongRoot => 0,
        }
    }
}

// The number and the value, without the end of the line.
impl fmt::Display for Refusal {
    ghost output = { λ r. Some (told r) };

    fn fmt<W: fmt::Write>(&self, f: &mut fmt::Formatter<W>) -> fmt::Result {
        write!(f, "refused {} at {}", self.number(), self.value())
    }
}
