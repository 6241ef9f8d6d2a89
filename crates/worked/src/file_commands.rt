// What is asked about one file of rules.
use crate::fixtures::check_printed;
use console::{Command, SourceKind, UnknownCommand, UnknownSource, replay_file, settle_file};
use lines::answer_line;
use runs::Call;
use std::alloc::Global;
use std::process::Abort;
use std::test::Fail;

// 1; 2 if not 1; 3 if not 3.
const BOOK: [u8; 24] = [
    3, 0, 0, 0xE0, 1, 0, 0, 0, 2, 0, 0, 0, 1, 0, 0, 0x40, 3, 0, 0, 0, 3, 0, 0, 0x40,
];

// One head, and a job that may go to it.
const SHEET: [u8; 8] = [1, 0x40, 0, 0xE0, 1, 5, 0, 0x60];

fn settles(
    rt: &impl Abort,
    heap: Global,
    kind: SourceKind,
    file: &[u8],
    text: &str,
) -> Result<(), Fail> {
    let told = settle_file(heap, kind, file).map(String::into_bytes);
    check_printed(rt, heap, told, true, text)
}

fn refuses(
    rt: &impl Abort,
    heap: Global,
    kind: SourceKind,
    file: &[u8],
    text: &str,
) -> Result<(), Fail> {
    let told = settle_file(heap, kind, file).map(String::into_bytes);
    check_printed(rt, heap, told, false, text)
}

#[test]
fn what_a_file_settles_is_a_line(rt: HostRuntime) -> Result<(), Fail> {
    settles(
        &rt,
        rt.alloc(),
        SourceKind::Book,
        &BOOK,
        "2 80000001 A0000002\n",
    )?;
    settles(
        &rt,
        rt.alloc(),
        SourceKind::Sharing,
        &SHEET,
        "2 80000001 A0000002\n",
    )?;
    settles(&rt, rt.alloc(), SourceKind::Book, &[0, 0, 0, 0xE0], "0\n")
}

#[test]
fn a_file_is_refused_as_its_kind(rt: HostRuntime) -> Result<(), Fail> {
    refuses(
        &rt,
        rt.alloc(),
        SourceKind::Sharing,
        &BOOK,
        "refused 4 at 0\n",
    )?;
    refuses(
        &rt,
        rt.alloc(),
        SourceKind::Book,
        &SHEET,
        "refused 4 at 0\n",
    )?;
    refuses(&rt, rt.alloc(), SourceKind::Book, &[], "refused 1 at 0\n")?;
    refuses(
        &rt,
        rt.alloc(),
        SourceKind::Sharing,
        &[1, 0x40, 0, 0xE0, 1, 5],
        "refused 1 at 1\n",
    )
}

#[test]
fn a_refused_file_is_not_replayed(rt: HostRuntime) -> Result<(), Fail> {
    let calls = Vec::new(rt.alloc());
    match replay_file(rt.alloc(), SourceKind::Sharing, &BOOK, &calls) {
        Ok(_) => assert!(rt; false),
        Err(e) => check_printed(&rt, rt.alloc(), Err(e), false, "refused 4 at 0\n")?,
    }
    Ok(())
}

#[test]
fn the_calls_are_made_on_the_rules_of_the_file(rt: HostRuntime) -> Result<(), Fail> {
    let mut calls = Vec::new(rt.alloc());
    calls.push(Call::Offer(vec![in rt.alloc(); 0x6000_0001]?))?;
    let answers = replay_file(rt.alloc(), SourceKind::Sharing, &SHEET, &calls)?;
    assert_eq!(rt; answers.len(), 1);
    for answer in &answers {
        assert_eq!(rt; answer_line(rt.alloc(), answer)?.as_str(), "passed\n");
    }
    Ok(())
}

#[test]
fn a_source_has_one_name(rt: HostRuntime) {
    assert_eq!(rt; "book".parse::<SourceKind>(), Ok(SourceKind::Book));
    assert_eq!(rt; "sharing".parse::<SourceKind>(), Ok(SourceKind::Sharing));
    for word in ["", "books", "Book", "sharing "] {
        assert_eq!(rt; word.parse::<SourceKind>(), Err(UnknownSource));
    }
}

#[test]
fn a_command_has_its_names(rt: HostRuntime) {
    assert_eq!(rt; "-h".parse::<Command>(), Ok(Command::Help));
    assert_eq!(rt; "--help".parse::<Command>(), Ok(Command::Help));
    assert_eq!(rt; "replay".parse::<Command>(), Ok(Command::Replay));
    assert_eq!(rt; "settled".parse::<Command>(), Ok(Command::Settled));
    for word in ["", "help", "Replay", "settled "] {
        assert_eq!(rt; word.parse::<Command>(), Err(UnknownCommand));
    }
}
