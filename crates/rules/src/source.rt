// What a rule source is asked. Rules and body atoms count from 1. Outside their range it answers 0 and no Option: these are public
// promises, which may not change.
ghost use Rattle.std.specs.Prelude.{◌≡◌, length};
ghost use Rattle.rules.specs.Program.{Program, Within};
ghost use Rattle.rules.specs.Asked.{head_at, size_at, literal_at, rule_at, body};
ghost use Rattle.rules.specs.Iterating.{left_of};

use crate::{Body, Literal};

pub trait RuleSource {
    // The rules that it means.
    ghost meaning: { Self → Program };

    // Every value means a well-formed program within the limits.
    ghost within: { (s : Self) → Within (meaning s) };

    // The atoms are 1 to this number.
    fn atom_count(&self) -> u32
        ensures { result ≡ (meaning self.now).atoms };

    fn rule_count(&self) -> usize
        ensures { result ≡ length (meaning self.now).rules };

    // The head of a rule, or 0 where there is no such rule.
    fn head(&self, rule: usize) -> u32
        ensures { result ≡ head_at (meaning self.now) rule };

    // The number of body atoms of a rule, or 0.
    fn body_len(&self, rule: usize) -> usize
        ensures { result ≡ size_at (meaning self.now) rule };

    // One body atom of a rule with its sign, the positive ones first and each run rising; or 0, positive.
    fn literal(&self, rule: usize, place: usize) -> Literal
        ensures { result ≡ literal_at (meaning self.now) rule place };

    // The literals of a rule's body.
    final fn body(&self, rule: usize) -> Body<'_, Self>
    where
        Self: Sized,
        ensures { left_of meaning result ≡ body (rule_at (meaning self.now) rule) }
    {
        Body::of(self, rule)
    }
}
