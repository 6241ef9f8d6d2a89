// The index of all rules of a source.
ghost use Rattle.std.specs.Prelude.{◌≡◌, ℕ, ◌+◌, ◌-◌, ◌<◌, ◌≤◌, [], ◌∷◌, length, take, if◌then◌else◌, ◌==◌};
ghost use Rattle.sets.specs.Limits.{max_atoms};
ghost use Rattle.rules.specs.Limits.{max_size};
ghost use Rattle.rules.specs.Program.{weight};
ghost use Rattle.models.specs.Listed.{listed, Indexed};

use super::{ATOM_PLACES, Occurrences, Position};
use arrayvec::ArrayVec;
use rules::RuleSource;

impl Occurrences {
    // No rules yet.
    pub(crate) fn new() -> Occurrences
        ensures { result.positions.items ≡ [] }
    {
        Occurrences {
            first: [0; ATOM_PLACES],
            positions: ArrayVec::new(),
        }
    }

    // Enters all rules of a source, where the index lies: to hand it on with its rules would copy all its places.
    pub(crate) fn enter_all<S: RuleSource>(&mut self, source: &S)
        requires { self.old.positions.items ≡ [] }
        ensures { Indexed (S.RuleSource.meaning source.now) (length (S.RuleSource.meaning source.now).rules) self.new }
    {
        for rule in 1..=source.rule_count() as u16 {
            self.enter(source, rule);
        }
    }

    // Enters the positive atoms of the rule behind the ones that are entered; they stand before the negative ones.
    fn enter<S: RuleSource>(&mut self, source: &S, rule: u16)
        requires indexed { Indexed (S.RuleSource.meaning source.now) (rule - 1) self.old }
        requires room { length self.old.positions.items ≤ weight (take (rule - 1) (S.RuleSource.meaning source.now).rules) }
        requires within { (1 ≤ rule) × (rule ≤ length (S.RuleSource.meaning source.now).rules) }
        ensures indexed { Indexed (S.RuleSource.meaning source.now) rule self.new }
        ensures room { length self.new.positions.items ≤ weight (take rule (S.RuleSource.meaning source.now).rules) }
    {
        // No `take_while`: what the check itself writes of a loop over one is refused here.
        for literal in source.body(rule as usize) {
            if !literal.positive {
                return;
            }
            self.add(literal.atom, rule);
        }
    }

    // Puts a rule in front of an atom's chain.
    fn add(&mut self, atom: u32, rule: u16)
        requires { (atom ≤ max_atoms) × (length self.old.positions.items < max_size) }
        ensures listed { (a : ℕ) → listed self.new a ≡ (if a == atom then rule ∷ listed self.old atom else listed self.old a) }
        ensures room { length self.new.positions.items ≡ length self.old.positions.items + 1 }
    {
        let next = self.first[atom as usize];
        self.positions.push(Position { rule, next });
        self.first[atom as usize] = self.positions.len() as u16;
    }
}
