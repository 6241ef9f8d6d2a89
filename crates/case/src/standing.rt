// What stands in a case: a hold list never without a plan. No Option of the last two, which each use would open first.
use sets::AtomSet;

#[derive(Clone, Copy)]
pub(crate) enum Standing {
    Nothing,
    Plan(AtomSet),
    Hold { plan: AtomSet, held: AtomSet },
}
