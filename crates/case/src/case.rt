// A case keeps a copy of its rules, so that what stands is true of rules that nothing else can change, and what these settle.
// Its rules, plan and hold list are three functions in clauses, and no one model: each call says of each what becomes of it.
ghost use Rattle.rules.specs.Tables.{program};
ghost use Rattle.case.specs.Standings.{Known, Upheld};

use crate::standing::Standing;
use rules::RuleTable;
use sets::AtomSet;
use settling::WellFounded;

#[derive(Drop)]
pub struct Case {
    pub(crate) rules: RuleTable,
    pub(crate) settled: WellFounded,
    // The atoms that may be assumed to be false under a plan without them.
    pub(crate) assumable: AtomSet,
    pub(crate) standing: Standing,
    ghost known: { ∥ Known (program rules) settled assumable ∥₁ },
    ghost upheld: { ∥ Upheld (program rules) standing ∥₁ },
}
