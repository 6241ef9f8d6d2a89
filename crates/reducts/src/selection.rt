// The rules of a source that pass a test. Their numbers are found once, so that no question goes through all rules.
ghost use Rattle.std.specs.Prelude.{◌≡◌, Bool};
ghost use Rattle.rules.specs.Program.{Rule};
ghost use Rattle.rules.specs.Asked.{rule_at};
ghost use Rattle.reducts.specs.Reducts.{only};
ghost use Rattle.reducts.specs.Selected.{passing};
ghost use Rattle.reducts.specs.Within.{only_within};

use arrayvec::ArrayVec;
use rules::{Literal, MAX_RULES, RuleSource};

// A test of rules; a trait and no closure, since what a made source means, and its set, are read from the test.
pub trait RuleTest {
    ghost passes: { Self → Rule → Bool };

    fn keeps<S: RuleSource>(&self, source: &S, rule: usize) -> bool
        ensures { result ≡ passes self.now (rule_at (S.RuleSource.meaning source.now) rule) };
}

#[derive(Drop)]
pub struct Selection<S: RuleSource, T: RuleTest> {
    source: S,
    pub(crate) test: T,
    numbers: ArrayVec<u16, MAX_RULES>,
    ghost found: { numbers.items ≡ passing (T.RuleTest.passes test) (S.RuleSource.meaning source) },
}

impl<S: RuleSource, T: RuleTest> Selection<S, T> {
    pub(crate) fn by(source: S, test: T) -> Selection<S, T>
        ensures source { result.source ≡ source }
        ensures test { result.test ≡ test }
    {
        // A push cannot fail here, as a collect could.
        let mut numbers = ArrayVec::new();
        for rule in 1..=source.rule_count() {
            if test.keeps(&source, rule) {
                numbers.push(rule as u16);
            }
        }
        Selection {
            source,
            test,
            numbers,
        }
    }

    // The number of a rule in the source, or 0, by which the source is asked for no rule: an Option would be turned into that.
    #[tactic(auto, using(crate::proofs::Selecting::passing_rule))]
    fn number(&self, rule: usize) -> usize
        ensures { rule_at (S.RuleSource.meaning self.now.source) result ≡ rule_at (only (T.RuleTest.passes self.now.test) (S.RuleSource.meaning self.now.source)) rule }
    {
        if rule == 0 {
            return 0;
        }
        self.numbers.get(rule - 1).copied().unwrap_or(0) as usize
    }
}

impl<S: RuleSource, T: RuleTest> RuleSource for Selection<S, T> {
    ghost meaning = { λ s. only (T.RuleTest.passes s.test) (S.RuleSource.meaning s.source) };

    ghost within = { λ s. only_within (T.RuleTest.passes s.test) (S.RuleSource.meaning s.source) (S.RuleSource.within s.source) };

    fn atom_count(&self) -> u32 {
        self.source.atom_count()
    }

    #[tactic(auto, using(crate::proofs::Selecting::passing_count))]
    fn rule_count(&self) -> usize {
        self.numbers.len()
    }

    fn head(&self, rule: usize) -> u32 {
        self.source.head(self.number(rule))
    }

    fn body_len(&self, rule: usize) -> usize {
        self.source.body_len(self.number(rule))
    }

    fn literal(&self, rule: usize, place: usize) -> Literal {
        self.source.literal(self.number(rule), place)
    }
}
