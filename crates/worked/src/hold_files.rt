// Books, plans and hold lists as the bytes of files.
use crate::fixtures::{FACT, MEMBER, check_printed};
use console::judge_files_and_hold;
use std::alloc::Global;
use std::process::Abort;
use std::test::Fail;

// 1 if not 2; 2 if not 1; 3 if 1; 4 if 5; 5 if 4.
const WORKED: [u8; 44] = [
    5, 0, 0, 0xE0, 1, 0, 0, 0, 2, 0, 0, 0x40, 2, 0, 0, 0, 1, 0, 0, 0x40, 3, 0, 0, 0, 1, 0, 0, 0x20,
    4, 0, 0, 0, 5, 0, 0, 0x20, 5, 0, 0, 0, 4, 0, 0, 0x20,
];

// The plan 1, 3 and the hold list 2.
const PLAN: [u8; 8] = [1, 0, 0, 0x60, 3, 0, 0, 0x60];

const HOLD: [u8; 4] = [2, 0, 0, 0x60];

fn passes(
    rt: &impl Abort,
    heap: Global,
    book: &[u8],
    plan: &[u8],
    hold: &[u8],
    text: &str,
) -> Result<(), Fail> {
    let told = judge_files_and_hold(heap, book, plan, hold);
    check_printed(rt, heap, told, true, text)
}

fn refuses(
    rt: &impl Abort,
    heap: Global,
    book: &[u8],
    plan: &[u8],
    hold: &[u8],
    text: &str,
) -> Result<(), Fail> {
    let told = judge_files_and_hold(heap, book, plan, hold);
    check_printed(rt, heap, told, false, text)
}

#[test]
fn what_passes_is_reported(rt: HostRuntime) -> Result<(), Fail> {
    let text = "plan 2 of 5 40%\n1 + h\n2 - a\n3 + h\n4 - w\n5 - w\n";
    passes(&rt, rt.alloc(), &WORKED, &PLAN, &HOLD, text)?;
    passes(
        &rt,
        rt.alloc(),
        &FACT,
        &MEMBER,
        &[],
        "plan 1 of 1 100%\n1 + w\n",
    )?;
    let text = "plan 0 of 3 0%\n1 - w\n2 - w\n3 - w\n";
    passes(&rt, rt.alloc(), &[3, 0, 0, 0xE0], &[], &[], text)?;
    passes(
        &rt,
        rt.alloc(),
        &[0, 0, 0, 0xE0],
        &[],
        &[],
        "plan 0 of 0 0%\n",
    )
}

#[test]
fn the_first_refusal_is_told(rt: HostRuntime) -> Result<(), Fail> {
    let heap = rt.alloc();
    refuses(&rt, heap, &[], &MEMBER, &HOLD, "refused 1 at 0\n")?;
    refuses(&rt, heap, &WORKED, &MEMBER, &MEMBER, "refused 5 at 3\n")?;
    refuses(
        &rt,
        heap,
        &[1, 0, 0, 0xE0],
        &MEMBER,
        &HOLD,
        "refused 6 at 1\n",
    )
}

#[test]
fn a_hold_list_is_told_last(rt: HostRuntime) -> Result<(), Fail> {
    let heap = rt.alloc();
    refuses(&rt, heap, &WORKED, &PLAN, &MEMBER, "refused 8 at 1\n")?;
    refuses(&rt, heap, &WORKED, &PLAN, &[], "refused 9 at 1\n")?;
    refuses(
        &rt,
        heap,
        &WORKED,
        &PLAN,
        &[6, 0, 0, 0x60],
        "refused 2 at 0\n",
    )?;
    refuses(
        &rt,
        heap,
        &WORKED,
        &PLAN,
        &[3, 0, 0, 0x60, 2, 0, 0, 0x60],
        "refused 3 at 1\n",
    )
}

#[test]
fn bytes_left_at_the_end_fit_no_form(rt: HostRuntime) -> Result<(), Fail> {
    let heap = rt.alloc();
    refuses(
        &rt,
        heap,
        &[1, 0, 0, 0xE0, 1],
        &MEMBER,
        &[],
        "refused 1 at 1\n",
    )?;
    refuses(
        &rt,
        heap,
        &FACT,
        &[1, 0, 0, 0x60, 2, 0],
        &[],
        "refused 1 at 1\n",
    )?;
    refuses(&rt, heap, &FACT, &[1, 0, 0], &[], "refused 1 at 0\n")?;
    refuses(
        &rt,
        heap,
        &WORKED,
        &PLAN,
        &[2, 0, 0, 0x60, 3, 0, 0],
        "refused 1 at 1\n",
    )
}
