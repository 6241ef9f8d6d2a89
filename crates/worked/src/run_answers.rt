// Calls in odd orders, as lines, and all that they are answered.
use crate::fixtures::{WORKED, WORKED_SHEET, book_of, member, set_of, sheet_of};
use lines::{LineError, answer_line, read_line};
use reducts::{NegativeReduct, Reduct};
use rules::RuleSource;
use runs::{Answer, Call, replay};
use std::alloc::{AllocError, Global};
use std::process::Abort;
use std::test::Fail;

// The calls of a script, one a line.
fn calls_of(heap: Global, script: &[&str]) -> Result<Vec<Call>, LineError> {
    let mut calls = Vec::new(heap);
    for text in script {
        if let Some(call) = read_line(heap, text.as_bytes())? {
            calls.push(call)?;
        }
    }
    Ok(calls)
}

// The lines of answers.
fn text_of(heap: Global, answers: &[Answer]) -> Result<String, AllocError> {
    let mut text = String::new(heap);
    for answer in answers {
        text.push_str(answer_line(heap, answer)?.as_str())?;
    }
    Ok(text)
}

// Makes the calls of a script, which has no other lines.
fn answers<S: RuleSource>(
    rt: &impl Abort,
    heap: Global,
    source: &S,
    script: &[&str],
    text: &str,
) -> Result<(), Fail> {
    let calls = calls_of(heap, script)?;
    assert_eq!(rt; calls.len(), script.len());
    let answers = replay(heap, source, calls.as_slice())?;
    assert_eq!(rt; text_of(heap, answers.as_slice())?.as_str(), text);
    Ok(())
}

#[test]
fn each_call_is_answered_by_what_stands_then(rt: HostRuntime) -> Result<(), Fail> {
    let book = book_of(rt.alloc(), &WORKED)?;
    let mut calls = Vec::new(rt.alloc());
    calls.push(Call::Offer(vec![in rt.alloc(); member(1), member(3)]?))?;
    calls.push(Call::Propose { room: 1024 })?;
    calls.push(Call::Hold(vec![in rt.alloc(); member(2)]?))?;
    calls.push(Call::Status { atom: 3 })?;
    let answers = replay(rt.alloc(), &book, calls.as_slice())?;
    assert_eq!(rt;
        text_of(rt.alloc(), answers.as_slice())?.as_str(),
        "passed\n1 60000002\npassed\nin\n"
    );
    Ok(())
}

// Calls that are refused, between those that let a plan and a hold list stand.
const REFUSED_CALLS: [&str; 19] = [
    "status 1",
    "propose 1024",
    "hold 60000002",
    "hold 00000000",
    "offer 60000001",
    "offer 60000001 60000003 60000004 60000005",
    "status 3",
    "offer 60000001 60000003",
    "offer 60000006",
    "hold",
    "hold 60000004",
    "propose 1023",
    "propose 1024",
    "hold 60000002",
    "status 3",
    "status 0",
    "status 6",
    "offer",
    "propose 4294967295",
];

const REFUSED_ANSWERS: &str = "refused 7 at 0
refused 7 at 0
refused 7 at 0
refused 7 at 0
refused 5 at 3
refused 6 at 4
refused 7 at 0
passed
refused 2 at 0
refused 9 at 1
refused 8 at 4
refused 12 at 1024
1 60000002
passed
in
refused 11 at 0
refused 11 at 6
refused 5 at 1
1 60000002
";

#[test]
fn refused_calls_change_nothing(rt: HostRuntime) -> Result<(), Fail> {
    let book = book_of(rt.alloc(), &WORKED)?;
    answers(&rt, rt.alloc(), &book, &REFUSED_CALLS, REFUSED_ANSWERS)
}

#[test]
fn another_plan_has_other_hold_lists(rt: HostRuntime) -> Result<(), Fail> {
    let book = book_of(rt.alloc(), &WORKED)?;
    let script = [
        "offer 60000002",
        "propose 1024",
        "hold 60000001",
        "offer 60000001 60000003",
        "hold 60000001",
        "hold 60000002",
        "hold 60000002 60000002",
        "status 2",
        "offer 60000002",
        "status 2",
        "hold 60000001",
    ];
    let text = "passed
1 60000001
passed
passed
refused 8 at 1
passed
refused 3 at 1
out
passed
in
passed
";
    answers(&rt, rt.alloc(), &book, &script, text)
}

#[test]
fn a_sheet_is_replayed(rt: HostRuntime) -> Result<(), Fail> {
    let sheet = sheet_of(&WORKED_SHEET)?;
    let script = [
        "offer 60000001 60000002",
        "offer 60000003 60000004",
        "offer 60000001 60000004",
        "propose 1024",
        "hold 60000003",
        "hold 60000002",
        "status 4",
        "offer 60000002 60000003",
        "propose 1024",
        "hold",
        "hold 60000001",
        "status 4",
        "status 5",
    ];
    let text = "refused 6 at 1
refused 5 at 1
passed
1 60000002
refused 8 at 3
passed
in
passed
1 60000001
refused 9 at 1
passed
out
refused 11 at 5
";
    answers(&rt, rt.alloc(), &sheet, &script, text)
}

#[test]
fn a_pile_is_replayed(rt: HostRuntime) -> Result<(), Fail> {
    let book = book_of(rt.alloc(), &WORKED)?;
    let first = NegativeReduct::new(&book, set_of(&[3]));
    let second = NegativeReduct::new(&first, set_of(&[4]));
    let script = [
        "offer 60000001 60000003",
        "offer 60000001",
        "propose 1024",
        "hold 60000002",
        "status 3",
    ];
    let text = "refused 6 at 3\npassed\n1 60000002\npassed\nout\n";
    answers(&rt, rt.alloc(), &second, &script, text)?;
    let third = Reduct::new(&second, set_of(&[1]));
    let text = "refused 6 at 3\npassed\n0\nrefused 8 at 2\nout\n";
    answers(&rt, rt.alloc(), &third, &script, text)
}
