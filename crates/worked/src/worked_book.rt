// Plans and questions over the worked book.
use crate::fixtures::{WORKED, case_of, member};
use base::Refusal;
use std::test::Fail;

#[test]
fn answer_sets_pass(rt: HostRuntime) -> Result<(), Fail> {
    let mut case = case_of(rt.alloc(), &WORKED)?;
    assert_eq!(rt; case.atom_count(), 5);
    assert_eq!(rt; case.offer(&[member(1), member(3)]), Ok(()));
    assert_eq!(rt; case.offer(&[member(2)]), Ok(()));
    Ok(())
}

#[test]
fn a_plan_without_a_head_is_refused_by_its_rule(rt: HostRuntime) -> Result<(), Fail> {
    let mut case = case_of(rt.alloc(), &WORKED)?;
    assert_eq!(rt;
        case.offer(&[member(1)]),
        Err(Refusal::RuleNotSatisfied { rule: 3 })
    );
    assert_eq!(rt; case.offer(&[]), Err(Refusal::RuleNotSatisfied { rule: 1 }));
    Ok(())
}

#[test]
fn atoms_that_only_support_each_other_are_not_derived(rt: HostRuntime) -> Result<(), Fail> {
    let mut case = case_of(rt.alloc(), &WORKED)?;
    assert_eq!(rt;
        case.offer(&[member(1), member(3), member(4), member(5)]),
        Err(Refusal::NotDerived { atom: 4 })
    );
    Ok(())
}

#[test]
fn no_status_before_a_plan(rt: HostRuntime) -> Result<(), Fail> {
    let mut case = case_of(rt.alloc(), &WORKED)?;
    assert_eq!(rt; case.status(3), Err(Refusal::NoPlan));
    assert!(rt; case.offer(&[member(1)]).is_err());
    assert_eq!(rt; case.status(3), Err(Refusal::NoPlan));
    Ok(())
}

#[test]
fn status_is_membership_in_the_plan(rt: HostRuntime) -> Result<(), Fail> {
    let mut case = case_of(rt.alloc(), &WORKED)?;
    case.offer(&[member(1), member(3)])?;
    assert_eq!(rt; case.status(1), Ok(true));
    assert_eq!(rt; case.status(2), Ok(false));
    assert_eq!(rt; case.status(3), Ok(true));
    assert_eq!(rt; case.status(4), Ok(false));
    assert_eq!(rt; case.status(5), Ok(false));
    Ok(())
}

#[test]
fn no_status_outside_the_atoms(rt: HostRuntime) -> Result<(), Fail> {
    let mut case = case_of(rt.alloc(), &WORKED)?;
    case.offer(&[member(1), member(3)])?;
    assert_eq!(rt; case.status(0), Err(Refusal::NoSuchAtom { atom: 0 }));
    assert_eq!(rt; case.status(6), Err(Refusal::NoSuchAtom { atom: 6 }));
    assert_eq!(rt;
        case.status(u32::MAX),
        Err(Refusal::NoSuchAtom { atom: u32::MAX })
    );
    Ok(())
}

#[test]
fn a_refused_offer_leaves_the_plan(rt: HostRuntime) -> Result<(), Fail> {
    let mut case = case_of(rt.alloc(), &WORKED)?;
    case.offer(&[member(1), member(3)])?;
    assert!(rt; case.offer(&[member(1)]).is_err());
    assert!(rt; case.offer(&[member(2), member(6)]).is_err());
    assert_eq!(rt; case.status(3), Ok(true));
    assert_eq!(rt; case.status(2), Ok(false));
    Ok(())
}

#[test]
fn a_passed_offer_replaces_the_plan(rt: HostRuntime) -> Result<(), Fail> {
    let mut case = case_of(rt.alloc(), &WORKED)?;
    case.offer(&[member(1), member(3)])?;
    case.offer(&[member(2)])?;
    assert_eq!(rt; case.status(2), Ok(true));
    assert_eq!(rt; case.status(1), Ok(false));
    assert_eq!(rt; case.status(3), Ok(false));
    Ok(())
}
