// A reference to a rule source as a rule source: each question goes on to it, and there is no shorter form for that.
use crate::{Literal, RuleSource};

impl<'a, S: RuleSource> RuleSource for &'a S {
    ghost meaning = { λ s. S.RuleSource.meaning s.now };

    ghost within = { λ s. S.RuleSource.within s.now };

    fn atom_count(&self) -> u32 {
        (**self).atom_count()
    }

    fn rule_count(&self) -> usize {
        (**self).rule_count()
    }

    fn head(&self, rule: usize) -> u32 {
        (**self).head(rule)
    }

    fn body_len(&self, rule: usize) -> usize {
        (**self).body_len(rule)
    }

    fn literal(&self, rule: usize, place: usize) -> Literal {
        (**self).literal(rule, place)
    }
}
