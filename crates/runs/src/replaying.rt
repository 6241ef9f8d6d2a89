// Makes calls on one new case, and keeps their answers.
ghost use Rattle.std.specs.Prelude.{◌≡◌, length, IfOk, OnOk};
ghost use Rattle.case.specs.Cases.{rules_of, plan_of, hold_of};
ghost use Rattle.runs.specs.Runs.{ProposeAnswer};
ghost use Rattle.runs.specs.Law.{LawOverRuns};
ghost use Rattle.runs.specs.Traces.{call_of, answer_of, trace};
ghost use Rattle.runs.specs.Steps.{Step};

use crate::{Answer, Call, Reply};
use case::Case;
use lists::LIST_ROOM;
use rules::RuleSource;
use std::alloc::{AllocError, Global};

// Makes the calls one after another on a new case over the rules of a source, and answers with their answers.
pub fn replay<S: RuleSource>(
    heap: Global,
    source: &S,
    calls: &[Call],
) -> Result<Vec<Answer>, AllocError>
    ensures answers { IfOk result (λ answers. length answers.items ≡ length calls.now) }
    ensures law { IfOk result (λ answers. LawOverRuns (S.RuleSource.meaning source.now) (trace calls.now answers.items)) }
{
    let mut case = Case::new(heap, source)?;
    let mut answers = Vec::with_capacity(heap, calls.len())?;
    for call in calls {
        answers.push(make(heap, &mut case, call)?)?;
    }
    Ok(answers)
}

// The plan and the hold list stand apart in the clauses, as each has rules of its own.
fn make(heap: Global, case: &mut Case, call: &Call) -> Result<Answer, AllocError>
    ensures same { OnOk result (rules_of case.new ≡ rules_of case.old) }
    ensures step { IfOk result (λ answer. Step (rules_of case.old) (call_of call.now) (answer_of answer) (plan_of case.old) (hold_of case.old) (plan_of case.new) (hold_of case.new)) }
{
    match call {
        Call::Offer(words) => Ok(case.offer(words).map(|()| Reply::Passed)),
        Call::Propose { room } => propose(heap, case, *room),
        Call::Hold(words) => Ok(case.hold(words).map(|()| Reply::Passed)),
        Call::Status { atom } => Ok(case.status(*atom).map(Reply::Told)),
    }
}

// A list never takes more than its room, so that no larger buffer is made.
fn propose(heap: Global, case: &Case, room: u32) -> Result<Answer, AllocError>
    ensures { IfOk result (λ answer. ProposeAnswer (rules_of case.now) (plan_of case.now) room (answer_of answer)) }
{
    let mut words = vec![in heap; 0; LIST_ROOM.min(room as usize)]?;
    Ok(
        case.propose(&mut words).map(|count| {
            words.truncate(count);
            Reply::Wrote(words)
        }),
    )
}
