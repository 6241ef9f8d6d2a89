// The worked sharing sheet.
use crate::fixtures::{WORKED_SHEET, check_source, passed_plans, sheet_of};
use rules::{RuleSource, RuleTable};
use sharing::SharingSheet;
use std::process::Abort;
use std::test::Fail;

// {2, 3} and {1, 4}, an atom's bit being its number less 1.
const ANSWER_SETS: [u32; 2] = [0b0110, 0b1001];

// Rules with their heads and lengths, inside and outside the numbers of the rules.
const RULES: [(usize, u32, usize); 7] = [
    (0, 0, 0),
    (1, 1, 1),
    (2, 2, 1),
    (3, 3, 1),
    (4, 4, 1),
    (5, 0, 0),
    (usize::MAX, 0, 0),
];

// Rules and places with the atoms there, and whether they are positive.
const LITERALS: [(usize, usize, u32, bool); 9] = [
    (0, 1, 0, true),
    (1, 0, 0, true),
    (1, 1, 2, false),
    (1, 2, 0, true),
    (2, 1, 1, false),
    (3, 1, 1, false),
    (4, 1, 2, false),
    (4, usize::MAX, 0, true),
    (5, 1, 0, true),
];

fn check_answers<S: RuleSource>(rt: &impl Abort, source: &S) {
    check_source(rt, source, (4, 4), &RULES, &LITERALS);
}

#[test]
fn a_sheet_answers_by_its_heads_and_jobs(rt: HostRuntime) -> Result<(), Fail> {
    let sheet = sheet_of(&WORKED_SHEET)?;
    check_answers(&rt, &sheet);
    check_answers(&rt, &RuleTable::copy_of(rt.alloc(), &sheet)?);
    Ok(())
}

#[test]
fn one_job_goes_to_the_head_and_the_other_waits(rt: HostRuntime) -> Result<(), Fail> {
    let sheet = sheet_of(&WORKED_SHEET)?;
    let passed = passed_plans(rt.alloc(), &sheet, 16)?;
    assert_eq!(rt; passed.as_slice(), ANSWER_SETS.as_slice());
    Ok(())
}

#[test]
fn jobs_of_one_ink_share_the_head(rt: HostRuntime) -> Result<(), Fail> {
    let sheet = sheet_of(&[0xE000_4002, 0x6000_0501, 0x6000_0501])?;
    let passed = passed_plans(rt.alloc(), &sheet, 16)?;
    assert_eq!(rt; passed.as_slice(), [0b0011].as_slice());
    Ok(())
}

#[test]
fn a_job_without_a_head_waits(rt: HostRuntime) -> Result<(), Fail> {
    let sheet = sheet_of(&[0xE000_4002, 0x6000_0500, 0x6000_0601])?;
    assert_eq!(rt; (sheet.atom_count(), sheet.rule_count()), (4, 3));
    let passed = passed_plans(rt.alloc(), &sheet, 16)?;
    assert_eq!(rt; passed.as_slice(), [0b0110].as_slice());
    Ok(())
}

#[test]
fn a_job_goes_to_one_of_its_heads(rt: HostRuntime) -> Result<(), Fail> {
    let sheet = sheet_of(&[0xE000_8001, 0x6000_0503])?;
    assert_eq!(rt; (sheet.atom_count(), sheet.rule_count()), (3, 3));
    let passed = passed_plans(rt.alloc(), &sheet, 8)?;
    assert_eq!(rt; passed.as_slice(), [0b001, 0b010].as_slice());
    Ok(())
}

#[test]
fn a_new_sheet_has_no_atoms_and_no_rules(rt: HostRuntime) {
    let sheet = SharingSheet::new();
    assert_eq!(rt; (sheet.atom_count(), sheet.rule_count()), (0, 0));
    assert_eq!(rt; (sheet.head(1), sheet.body_len(1)), (0, 0));
}
