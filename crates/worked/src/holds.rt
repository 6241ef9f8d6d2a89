// Hold lists under the plan 1, 3 of the worked book.
use crate::fixtures::{WORKED, case_of, held, member, planned, positive};
use crate::reports::{WORKED_REPORT, reports};
use base::Refusal;
use std::test::Fail;

#[test]
fn the_pre_assumptions_are_proposed(rt: HostRuntime) -> Result<(), Fail> {
    let mut case = planned(rt.alloc())?;
    let mut out = [7; 1024];
    let mut expected = [7; 1024];
    expected[0] = member(2);
    assert_eq!(rt; case.propose(&mut out), Ok(1));
    assert_eq!(rt; out.as_slice(), expected.as_slice());
    case.offer(&[member(2)])?;
    expected[0] = member(1);
    assert_eq!(rt; case.propose(&mut out), Ok(1));
    assert_eq!(rt; out.as_slice(), expected.as_slice());
    Ok(())
}

#[test]
fn a_buffer_that_is_too_short_is_untouched(rt: HostRuntime) -> Result<(), Fail> {
    let case = planned(rt.alloc())?;
    let mut out = [7; 1023];
    assert_eq!(rt;
        case.propose(&mut out),
        Err(Refusal::BufferTooShort { needed: 1024 })
    );
    assert_eq!(rt; out.as_slice(), [7; 1023].as_slice());
    Ok(())
}

#[test]
fn words_behind_the_list_stay(rt: HostRuntime) -> Result<(), Fail> {
    let case = planned(rt.alloc())?;
    let mut out = [7; 1030];
    assert_eq!(rt; case.propose(&mut out), Ok(1));
    assert_eq!(rt;
        [out[0], out[1], out[1023], out[1029]],
        [member(2), 7, 7, 7]
    );
    Ok(())
}

#[test]
fn without_a_plan_that_is_told_first(rt: HostRuntime) -> Result<(), Fail> {
    let mut case = case_of(rt.alloc(), &WORKED)?;
    assert_eq!(rt; case.propose(&mut [7; 1024]), Err(Refusal::NoPlan));
    assert_eq!(rt; case.propose(&mut []), Err(Refusal::NoPlan));
    assert_eq!(rt; case.hold(&[member(2)]), Err(Refusal::NoPlan));
    assert_eq!(rt; case.hold(&[positive(0)]), Err(Refusal::NoPlan));
    assert_eq!(rt; case.report(&mut []), Err(Refusal::NoHoldList));
    Ok(())
}

#[test]
fn an_assumption_passes(rt: HostRuntime) -> Result<(), Fail> {
    let mut case = planned(rt.alloc())?;
    assert_eq!(rt; case.hold(&[member(2)]), Ok(()));
    case.offer(&[member(2)])?;
    assert_eq!(rt; case.hold(&[member(1)]), Ok(()));
    Ok(())
}

#[test]
fn a_list_that_settles_too_little_is_refused(rt: HostRuntime) -> Result<(), Fail> {
    let mut case = planned(rt.alloc())?;
    assert_eq!(rt; case.hold(&[]), Err(Refusal::NotSettled { atom: 1 }));
    assert_eq!(rt; case.report(&mut []), Err(Refusal::NoHoldList));
    Ok(())
}

#[test]
fn the_first_atom_that_is_no_pre_assumption_is_told(rt: HostRuntime) -> Result<(), Fail> {
    let mut case = planned(rt.alloc())?;
    for atom in [1, 3, 4, 5] {
        assert_eq!(rt;
            case.hold(&[member(atom)]),
            Err(Refusal::NotPreAssumption { atom })
        );
    }
    assert_eq!(rt;
        case.hold(&[member(2), member(4), member(5)]),
        Err(Refusal::NotPreAssumption { atom: 4 })
    );
    Ok(())
}

#[test]
fn the_words_of_a_hold_list_are_those_of_a_plan(rt: HostRuntime) -> Result<(), Fail> {
    let mut case = planned(rt.alloc())?;
    assert_eq!(rt;
        case.hold(&[member(2), positive(3)]),
        Err(Refusal::NoForm { place: 1 })
    );
    assert_eq!(rt;
        case.hold(&[member(4), member(6)]),
        Err(Refusal::OutOfRange { place: 1 })
    );
    assert_eq!(rt;
        case.hold(&[member(4), member(5), member(5)]),
        Err(Refusal::NotRising { place: 2 })
    );
    Ok(())
}

#[test]
fn a_passed_offer_strikes_off_the_hold_list(rt: HostRuntime) -> Result<(), Fail> {
    let mut case = held(rt.alloc())?;
    assert_eq!(rt; case.offer(&[member(1), member(3)]), Ok(()));
    assert_eq!(rt; case.report(&mut [0; 9239]), Err(Refusal::NoHoldList));
    case.hold(&[member(2)])?;
    assert_eq!(rt; case.offer(&[member(2)]), Ok(()));
    assert_eq!(rt; case.report(&mut [0; 9239]), Err(Refusal::NoHoldList));
    Ok(())
}

#[test]
fn what_is_refused_leaves_what_stands(rt: HostRuntime) -> Result<(), Fail> {
    let mut case = held(rt.alloc())?;
    assert!(rt; case.offer(&[member(1)]).is_err());
    assert!(rt; case.offer(&[member(6)]).is_err());
    assert!(rt; case.hold(&[]).is_err());
    assert!(rt; case.hold(&[member(4)]).is_err());
    assert!(rt; case.hold(&[positive(2)]).is_err());
    reports(&rt, rt.alloc(), &case, WORKED_REPORT)
}
