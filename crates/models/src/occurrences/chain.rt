// The rules on the chain of an atom.
ghost use Rattle.std.specs.Prelude.{◌≡◌, ◌≤◌, length};
ghost use Rattle.std.specs.Iterator.{YieldsFirst, item_count};
ghost use Rattle.models.specs.Chains.{Falling};

use super::{Occurrences, Position};

// Those from the position `at` on are still to come.
#[derive(Drop)]
pub(crate) struct Chain<'a> {
    positions: &'a [Position],
    at: usize,
    ghost falls: { Falling positions.now },
    ghost within: { at ≤ length positions.now },
}

impl Occurrences {
    ghost use Rattle.sets.specs.Limits.{max_atoms};
    ghost use Rattle.models.specs.Listed.{listed, left_of};

    // The rules in whose bodies an atom stands positively.
    pub(crate) fn rules_of(&self, atom: u32) -> Chain<'_>
        requires { atom ≤ max_atoms }
        ensures { left_of result ≡ listed self.now atom }
    {
        Chain {
            positions: &self.positions,
            at: self.first[atom as usize] as usize,
        }
    }
}

impl<'a> Iterator for Chain<'a> {
    ghost use Rattle.models.specs.Listed.{left_of};

    type Item = usize;

    ghost next_gives = { YieldsFirst left_of };

    ghost remaining = { item_count left_of };

    fn next(&mut self) -> Option<usize> {
        let Position { rule, next } = self.positions[self.at.checked_sub(1)?];
        self.at = next as usize;
        Some(rule as usize)
    }
}
