// An iterator over the atoms of a set, rising. It counts, as a set has no slice of its members.
ghost use Rattle.std.specs.Prelude.{◌≡◌, length};
ghost use Rattle.sets.specs.Sets as sets;
ghost use Rattle.sets.specs.Iterating.{left_of, gives_first};
ghost use Rattle.std.specs.Iterator.{at_most};

use crate::AtomSet;

#[derive(Drop)]
pub struct Members<'a> {
    set: &'a AtomSet,
    next: u32,
}

impl AtomSet {
    pub fn members(&self) -> Members<'_>
        ensures { left_of result ≡ sets.members self.now }
    {
        Members { set: self, next: 1 }
    }
}

impl<'a> Iterator for Members<'a> {
    type Item = u32;

    ghost next_gives = { gives_first };

    ghost remaining = { λ s. at_most (length (left_of s)) };

    fn next(&mut self) -> Option<u32> {
        let atom = self.set.first_from(self.next)?;
        self.next = atom + 1;
        Some(atom)
    }
}
