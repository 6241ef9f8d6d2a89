// An iterator over the literals of a rule's body.
ghost use Rattle.std.specs.Prelude.{◌≡◌};
ghost use Rattle.std.specs.Iterator.{YieldsFirst, item_count};
ghost use Rattle.rules.specs.Asked.{rule_at, body};
ghost use Rattle.rules.specs.Iterating.{left_of};

use crate::{Literal, RuleSource};

// Those at the places behind `given` up to `size` are still to come; a range would hold the same two numbers.
#[derive(Drop)]
pub struct Body<'a, S> {
    source: &'a S,
    rule: usize,
    given: usize,
    size: usize,
}

impl<'a, S: RuleSource> Body<'a, S> {
    pub(crate) fn of(source: &'a S, rule: usize) -> Body<'a, S>
        ensures { left_of S.RuleSource.meaning result ≡ body (rule_at (S.RuleSource.meaning source.now) rule) }
    {
        Body {
            source,
            rule,
            given: 0,
            size: source.body_len(rule),
        }
    }
}

impl<'a, S: RuleSource> Iterator for Body<'a, S> {
    type Item = Literal;

    ghost next_gives = { YieldsFirst (left_of S.RuleSource.meaning) };

    ghost remaining = { item_count (left_of S.RuleSource.meaning) };

    fn next(&mut self) -> Option<Literal> {
        if self.given >= self.size {
            return None;
        }
        self.given += 1;
        Some(self.source.literal(self.rule, self.given))
    }
}
