// Whether the body of a rule holds.
ghost use Rattle.std.specs.Prelude.{◌≡◌};
ghost use Rattle.sets.specs.Sets.{has};
ghost use Rattle.rules.specs.Asked.{rule_at};
ghost use Rattle.models.specs.Firing.{firing};

use rules::RuleSource;
use sets::AtomSet;

// Whether the positive atoms of a rule are all found and its negative ones are not blocked.
pub(crate) fn fires<S: RuleSource>(
    source: &S,
    blocked: &AtomSet,
    found: &AtomSet,
    rule: usize,
) -> bool
    ensures { result ≡ firing (has blocked.now) (has found.now) (rule_at (S.RuleSource.meaning source.now) rule) }
{
    source.body(rule).all(|literal| {
        if literal.positive {
            found.contains(literal.atom)
        } else {
            !blocked.contains(literal.atom)
        }
    })
}
