// Reports and refusal lines.
use crate::fixtures::{case_of, held, member, negative, opening, planned, written};
use base::Refusal;
use case::Case;
use std::alloc::Global;
use std::process::Abort;
use std::test::Fail;
use texts::write_refusal;

// The worked book with the plan 1, 3 and the hold list 2.
pub(crate) const WORKED_REPORT: &str = "plan 2 of 5 40%\n1 + h\n2 - a\n3 + h\n4 - w\n5 - w\n";

pub(crate) fn reports(rt: &impl Abort, heap: Global, case: &Case, text: &str) -> Result<(), Fail> {
    let out = written(heap, 0, 9239, |out| case.report(out))?;
    assert_eq!(rt; out.as_slice(), text.as_bytes());
    Ok(())
}

fn writes_line(
    rt: &impl Abort,
    heap: Global,
    number: u8,
    value: u32,
    text: &str,
) -> Result<(), Fail> {
    let out = written(heap, 0, 32, |out| write_refusal(out, number, value))?;
    assert_eq!(rt; out.as_slice(), text.as_bytes());
    Ok(())
}

#[test]
fn the_worked_plan_and_hold_list_are_reported(rt: HostRuntime) -> Result<(), Fail> {
    let case = held(rt.alloc())?;
    reports(&rt, rt.alloc(), &case, WORKED_REPORT)
}

#[test]
fn no_atoms_are_reported_as_none_of_none(rt: HostRuntime) -> Result<(), Fail> {
    let mut case = case_of(rt.alloc(), &[opening(0)])?;
    case.offer(&[])?;
    case.hold(&[])?;
    reports(&rt, rt.alloc(), &case, "plan 0 of 0 0%\n")
}

#[test]
fn the_percentage_is_rounded_down(rt: HostRuntime) -> Result<(), Fail> {
    let mut case = case_of(rt.alloc(), &[opening(3), 1, 3, 2, negative(3)])?;
    case.offer(&[member(1), member(3)])?;
    case.hold(&[])?;
    reports(
        &rt,
        rt.alloc(),
        &case,
        "plan 2 of 3 66%\n1 + w\n2 - w\n3 + w\n",
    )
}

#[test]
fn a_report_needs_9239_bytes(rt: HostRuntime) -> Result<(), Fail> {
    let case = held(rt.alloc())?;
    let mut out = [7u8; 9238];
    assert_eq!(rt;
        case.report(&mut out),
        Err(Refusal::BufferTooShort { needed: 9239 })
    );
    assert_eq!(rt; out.as_slice(), [7u8; 9238].as_slice());
    Ok(())
}

#[test]
fn bytes_behind_a_report_stay(rt: HostRuntime) -> Result<(), Fail> {
    let case = held(rt.alloc())?;
    let mut out = [7u8; 9239];
    assert_eq!(rt; case.report(&mut out), Ok(46));
    assert_eq!(rt; [out[45], out[46], out[9238]], [b'\n', 7, 7]);
    Ok(())
}

#[test]
fn no_hold_list_is_told_before_the_buffer(rt: HostRuntime) -> Result<(), Fail> {
    let case = planned(rt.alloc())?;
    assert_eq!(rt; case.report(&mut [0; 9238]), Err(Refusal::NoHoldList));
    assert_eq!(rt; case.report(&mut [0; 9239]), Err(Refusal::NoHoldList));
    Ok(())
}

#[test]
fn a_refusal_is_a_line(rt: HostRuntime) -> Result<(), Fail> {
    writes_line(&rt, rt.alloc(), 9, 1, "refused 9 at 1\n")?;
    writes_line(&rt, rt.alloc(), 0, 0, "refused 0 at 0\n")?;
    writes_line(&rt, rt.alloc(), 10, 100, "refused 10 at 100\n")?;
    writes_line(
        &rt,
        rt.alloc(),
        255,
        u32::MAX,
        "refused 255 at 4294967295\n",
    )
}

#[test]
fn a_refusal_line_needs_32_bytes(rt: HostRuntime) {
    let mut short = [7u8; 31];
    assert_eq!(rt;
        write_refusal(&mut short, 9, 1),
        Err(Refusal::BufferTooShort { needed: 32 })
    );
    assert_eq!(rt; short, [7; 31]);
    let mut out = [7u8; 33];
    assert_eq!(rt; write_refusal(&mut out, 9, 1), Ok(15));
    assert_eq!(rt; [out[13], out[14], out[15], out[32]], [b'1', b'\n', 7, 7]);
}
