// Books and plans as the bytes of files.
use crate::fixtures::{FACT, MEMBER};
use console::{Outcome, judge_files};
use std::alloc::Global;
use std::process::Abort;
use std::test::Fail;

fn passes(rt: &impl Abort, heap: Global, book: &[u8], plan: &[u8], text: &str) -> Result<(), Fail> {
    let outcome = Outcome::of(heap, judge_files(heap, book, plan))?;
    assert!(rt; outcome.passed);
    assert_eq!(rt; outcome.text.as_str(), text);
    Ok(())
}

fn refuses(
    rt: &impl Abort,
    heap: Global,
    book: &[u8],
    plan: &[u8],
    line: &str,
) -> Result<(), Fail> {
    let outcome = Outcome::of(heap, judge_files(heap, book, plan))?;
    assert!(rt; !outcome.passed);
    assert_eq!(rt; outcome.text.as_str(), line);
    Ok(())
}

#[test]
fn a_plan_that_passes_is_reported(rt: HostRuntime) -> Result<(), Fail> {
    passes(&rt, rt.alloc(), &FACT, &MEMBER, "plan 1 of 1 100%\n1 +\n")?;
    passes(
        &rt,
        rt.alloc(),
        &[3, 0, 0, 0xE0],
        &[],
        "plan 0 of 3 0%\n1 -\n2 -\n3 -\n",
    )?;
    passes(&rt, rt.alloc(), &[0, 0, 0, 0xE0], &[], "plan 0 of 0 0%\n")
}

#[test]
fn the_first_refusal_is_told(rt: HostRuntime) -> Result<(), Fail> {
    refuses(&rt, rt.alloc(), &[], &MEMBER, "refused 1 at 0\n")?;
    refuses(&rt, rt.alloc(), &FACT, &[], "refused 5 at 1\n")?;
    refuses(
        &rt,
        rt.alloc(),
        &[1, 0, 0, 0xE0],
        &MEMBER,
        "refused 6 at 1\n",
    )
}

#[test]
fn bytes_left_at_the_end_fit_no_form(rt: HostRuntime) -> Result<(), Fail> {
    refuses(
        &rt,
        rt.alloc(),
        &[1, 0, 0, 0xE0, 1],
        &MEMBER,
        "refused 1 at 1\n",
    )?;
    refuses(
        &rt,
        rt.alloc(),
        &FACT,
        &[1, 0, 0, 0x60, 2, 0],
        "refused 1 at 1\n",
    )?;
    refuses(&rt, rt.alloc(), &FACT, &[1, 0, 0], "refused 1 at 0\n")
}
