// Runs over the rules of a file, and what these settle.
ghost use Rattle.std.specs.Prelude.{string_bytes, vec_items};
ghost use Rattle.rules.specs.Tables.{program};
ghost use Rattle.texts.specs.Files.{words_of};
ghost use Rattle.console.specs.Telling.{Tells};
ghost use Rattle.console.specs.Sources.{rules_read};
ghost use Rattle.console.specs.Replays.{ReplayTold, SettledLine, ToldSettled};

use crate::SourceKind;
use crate::sources::load_rules;
use base::LoadError;
use case::Case;
use lines::words_line;
use lists::LIST_ROOM;
use rules::RuleTable;
use runs::{Answer, Call, replay};
use std::alloc::Global;

// Makes calls on a new case over the rules of a file; rules that are refused run nothing.
pub fn replay_file(
    heap: Global,
    kind: SourceKind,
    file: &[u8],
    calls: &[Call],
) -> Result<Vec<Answer>, LoadError>
    ensures { ReplayTold vec_items (rules_read kind (words_of file.now)) calls.now result }
{
    let rules = load_rules(heap, kind, file)?;
    Ok(replay(heap, &rules, calls)?)
}

// Tells what the rules of a file settle without any plan.
pub fn settle_file(heap: Global, kind: SourceKind, file: &[u8]) -> Result<String, LoadError>
    ensures { Tells string_bytes (ToldSettled (rules_read kind (words_of file.now))) result }
{
    let rules = load_rules(heap, kind, file)?;
    tell_settled(heap, &rules)
}

// Its buffer is kept as that of a report.
fn tell_settled(heap: Global, rules: &RuleTable) -> Result<String, LoadError>
    ensures { Tells string_bytes (SettledLine (program rules.now)) result }
{
    let case = Case::new(heap, rules)?;
    let mut words = vec![in heap; 0; LIST_ROOM]?;
    let count = case.settled(&mut words)?;
    words.truncate(count);
    Ok(words_line(heap, &words)?)
}
