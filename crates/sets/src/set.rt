// Sets of the atoms 1 to 1,024, one bit for each.
ghost use Rattle.std.specs.Prelude.{◌≡◌, ℕ, ◌+◌, ◌≤◌, true, false, not, ◌&&◌, ◌||◌, if◌then◌else◌, MatchOption, ◌==◌};
ghost use Rattle.sets.specs.Sets.{is_atom, IsPlace, has, size, Least};

use std::array;

pub const MAX_ATOMS: u32 = 1024;

const SET_WORDS: usize = MAX_ATOMS as usize / 64;

// Atom a is bit (a - 1) % 64 of word (a - 1) / 64.
#[derive(Clone, Copy)]
pub struct AtomSet {
    words: [u64; SET_WORDS],
}

impl AtomSet {
    pub fn new() -> AtomSet
        ensures none { (a : ℕ) → has result a ≡ false }
        ensures size { size result ≡ 0 }
    {
        AtomSet {
            words: [0; SET_WORDS],
        }
    }

    // Whether an atom is in the set; a number that is no atom is not.
    pub fn contains(&self, atom: u32) -> bool
        ensures { result ≡ has self.now atom }
    {
        match place_of(atom) {
            Some((word, bit)) => self.words[word] & bit != 0,
            None => false,
        }
    }

    // Adds an atom, and answers whether it is new; a number that is no atom changes nothing.
    pub fn insert(&mut self, atom: u32) -> bool
        ensures answer { result ≡ (is_atom atom && not (has self.old atom)) }
        ensures after { (a : ℕ) → has self.new a ≡ (has self.old a || (a == atom && is_atom atom)) }
        ensures size { size self.new ≡ size self.old + (if result then 1 else 0) }
    {
        let Some((word, bit)) = place_of(atom) else {
            return false;
        };
        let new = self.words[word] & bit == 0;
        self.words[word] |= bit;
        new
    }

    // Takes an atom out, and answers whether it was there.
    pub fn remove(&mut self, atom: u32) -> bool
        ensures answer { result ≡ has self.old atom }
        ensures after { (a : ℕ) → has self.new a ≡ (has self.old a && not (a == atom)) }
        ensures size { size self.new + (if result then 1 else 0) ≡ size self.old }
    {
        let Some((word, bit)) = place_of(atom) else {
            return false;
        };
        let member = self.words[word] & bit != 0;
        self.words[word] &= !bit;
        member
    }

    // The members that another set lacks.
    pub fn difference(&self, other: &AtomSet) -> AtomSet
        ensures { (a : ℕ) → has result a ≡ (has self.now a && not (has other.now a)) }
    {
        AtomSet {
            words: array::from_fn(|i| self.words[i] & !other.words[i]),
        }
    }

    // How many atoms are in the set: the ones of its words, summed.
    pub fn count(&self) -> u32
        ensures { result ≡ size self.now }
    {
        self.words.iter().map(|word| word.count_ones()).sum()
    }

    // The smallest member from a number on. A range with its end would be asked more at each step, here and below.
    pub fn first_from(&self, low: u32) -> Option<u32>
        ensures { MatchOption result ((a : ℕ) → low ≤ a → has self.now a ≡ false) (Least (λ a. (low ≤ a) × (has self.now a ≡ true))) }
    {
        (low..MAX_ATOMS + 1).find(|&atom| self.contains(atom))
    }

    // The smallest member that another set lacks.
    pub fn first_outside(&self, other: &AtomSet) -> Option<u32>
        ensures { MatchOption result ((a : ℕ) → has self.now a ≡ true → has other.now a ≡ true) (Least (λ a. (has self.now a ≡ true) × (has other.now a ≡ false))) }
    {
        (1..MAX_ATOMS + 1).find(|&atom| self.contains(atom) && !other.contains(atom))
    }
}

// The word of an atom, and the bit that stands for it there; a number that is no atom has none.
fn place_of(atom: u32) -> Option<(usize, u64)>
    ensures { MatchOption result (is_atom atom ≡ false) (IsPlace atom) }
{
    if atom == 0 || atom > MAX_ATOMS {
        return None;
    }
    let i = atom - 1;
    Some(((i / 64) as usize, 1 << (i % 64)))
}
