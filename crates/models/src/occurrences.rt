// Where each atom stands positively, so that an atom is followed without asking every rule.
mod chain;
mod entering;

ghost use Rattle.std.specs.Prelude.{ℕ, ◌≤◌, length, slice_index};
ghost use Rattle.models.specs.Chains.{Falling};

use arrayvec::ArrayVec;
pub(crate) use chain::Chain;
use rules::MAX_SIZE;
use sets::MAX_ATOMS;

// A place for each atom, and one that stands for none.
const ATOM_PLACES: usize = MAX_ATOMS as usize + 1;

// A rule on the chain of an atom, and the position after it on the chain.
#[derive(Clone, Copy, Default)]
pub(crate) struct Position {
    rule: u16,
    next: u16,
}

// Positions count from 1, one for each body atom of the largest source; 0 stands for none, so that they fit 16 bits.
// Of an atom's chain `first` is the first.
// Chains in fixed memory, and no list for each atom, since deriving never allocates.
#[derive(Drop)]
pub(crate) struct Occurrences {
    first: [u16; ATOM_PLACES],
    positions: ArrayVec<Position, MAX_SIZE>,
    ghost starts: { (a : ℕ) → slice_index first a ≤ length positions.items },
    ghost falls: { Falling positions.items },
}
