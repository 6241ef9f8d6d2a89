// Sharing sheets at and past each limit.
use crate::fixtures::{WORKED_SHEET, check_source, member, sheet_of};
use base::Refusal;
use rules::RuleSource;
use sharing::SharingSheet;
use std::alloc::{AllocError, Global};
use std::process::Abort;
use std::test::Fail;

// An ink, and the first head.
const JOB: u32 = 0x6000_0501;

// An opening word with its bit 28.
const SPARE_BIT: u32 = 0x1000_0000;

fn counts(heads: u32, jobs: u32) -> u32 {
    0xE000_0000 | (heads << 14) | jobs
}

fn refuses(rt: &impl Abort, words: &[u32], refusal: Refusal) -> Result<(), Fail> {
    let mut sheet = sheet_of(&WORKED_SHEET)?;
    assert_eq!(rt; sheet.load(words), Err(refusal));
    assert_eq!(rt; (sheet.atom_count(), sheet.rule_count()), (4, 4));
    assert_eq!(rt;
        (sheet.literal(1, 1).atom, sheet.literal(4, 1).atom),
        (2, 2)
    );
    Ok(())
}

// Jobs of an ink each that may go to any of eight heads.
fn crowd(heap: Global, jobs: u32) -> Result<Vec<u32>, AllocError> {
    let mut words = vec![in heap; counts(8, jobs)]?;
    for ink in 0..jobs {
        words.push(member((ink << 8) | 0xFF))?;
    }
    Ok(words)
}

// Rules plus body atoms.
fn size_of<S: RuleSource>(source: &S) -> usize {
    let mut size: usize = 0;
    for rule in 1..=source.rule_count() {
        size = size.wrapping_add(1).wrapping_add(source.body_len(rule));
    }
    size
}

#[test]
fn a_sheet_has_1_to_8_heads(rt: HostRuntime) -> Result<(), Fail> {
    refuses(&rt, &[counts(0, 0)], Refusal::PastLimit { place: 0 })?;
    refuses(&rt, &[counts(9, 0)], Refusal::PastLimit { place: 0 })?;
    refuses(&rt, &[counts(0x3FFF, 0)], Refusal::PastLimit { place: 0 })?;
    let mut sheet = SharingSheet::new();
    assert_eq!(rt; sheet.load(&[counts(1, 0)]), Ok(()));
    assert_eq!(rt; sheet.load(&[counts(8, 1), member(0x1FF)]), Ok(()));
    assert_eq!(rt; (sheet.atom_count(), sheet.rule_count()), (9, 9));
    Ok(())
}

#[test]
fn a_sheet_has_at_most_24_jobs(rt: HostRuntime) -> Result<(), Fail> {
    let mut sheet = SharingSheet::new();
    let most = crowd(rt.alloc(), 24)?;
    assert_eq!(rt; sheet.load(most.as_slice()), Ok(()));
    let more = crowd(rt.alloc(), 25)?;
    assert_eq!(rt;
        sheet.load(more.as_slice()),
        Err(Refusal::PastLimit { place: 0 })
    );
    refuses(&rt, &[counts(1, 25)], Refusal::PastLimit { place: 0 })?;
    refuses(&rt, &[counts(1, 0x3FFF)], Refusal::PastLimit { place: 0 })
}

#[test]
fn the_opening_word_has_no_bit_28(rt: HostRuntime) -> Result<(), Fail> {
    refuses(
        &rt,
        &[SPARE_BIT | counts(1, 0)],
        Refusal::NoForm { place: 0 },
    )?;
    refuses(
        &rt,
        &[SPARE_BIT | counts(8, 24)],
        Refusal::NoForm { place: 0 },
    )?;
    refuses(
        &rt,
        &[SPARE_BIT | counts(0, 0)],
        Refusal::PastLimit { place: 0 },
    )?;
    refuses(
        &rt,
        &[SPARE_BIT | counts(9, 0)],
        Refusal::PastLimit { place: 0 },
    )?;
    refuses(
        &rt,
        &[SPARE_BIT | counts(1, 25)],
        Refusal::PastLimit { place: 0 },
    )?;
    refuses(&rt, &[u32::MAX], Refusal::PastLimit { place: 0 })
}

#[test]
fn a_sheet_begins_with_an_opening_word(rt: HostRuntime) -> Result<(), Fail> {
    refuses(&rt, &[], Refusal::NoForm { place: 0 })?;
    for kind in 0..7u32 {
        refuses(&rt, &[(kind << 29) | 0x4000], Refusal::NoForm { place: 0 })?;
        refuses(
            &rt,
            &[(kind << 29) | 0x1FFF_FFFF],
            Refusal::NoForm { place: 0 },
        )?;
    }
    Ok(())
}

#[test]
fn there_are_as_many_job_words_as_jobs(rt: HostRuntime) -> Result<(), Fail> {
    refuses(&rt, &[counts(1, 1)], Refusal::NoForm { place: 1 })?;
    refuses(&rt, &[counts(1, 3), JOB, JOB], Refusal::NoForm { place: 3 })?;
    refuses(&rt, &[counts(1, 0), JOB], Refusal::NoForm { place: 1 })?;
    refuses(
        &rt,
        &[counts(1, 1), JOB, JOB, 0],
        Refusal::NoForm { place: 2 },
    )
}

#[test]
fn a_job_is_a_member_word_with_three_bytes(rt: HostRuntime) -> Result<(), Fail> {
    for kind in [0, 1, 2, 4, 5, 6, 7u32] {
        let word = (kind << 29) | 0x501;
        refuses(
            &rt,
            &[counts(1, 2), JOB, word],
            Refusal::NoForm { place: 2 },
        )?;
    }
    for bit in 24..29u32 {
        let word = JOB | (1 << bit);
        refuses(
            &rt,
            &[counts(1, 2), word, JOB],
            Refusal::NoForm { place: 1 },
        )?;
    }
    let mut sheet = SharingSheet::new();
    assert_eq!(rt; sheet.load(&[counts(1, 1), member(0x00FF_FF01)]), Ok(()));
    Ok(())
}

#[test]
fn a_job_goes_to_heads_of_the_sheet(rt: HostRuntime) -> Result<(), Fail> {
    let refusal = Refusal::OutOfRange { place: 1 };
    refuses(&rt, &[counts(1, 1), member(0x502)], refusal)?;
    refuses(&rt, &[counts(7, 1), member(0x5FF)], refusal)?;
    refuses(&rt, &[counts(3, 1), member(0x508)], refusal)?;
    let mut sheet = SharingSheet::new();
    assert_eq!(rt; sheet.load(&[counts(3, 1), member(0x507)]), Ok(()));
    Ok(())
}

#[test]
fn the_form_of_a_job_is_told_before_its_heads(rt: HostRuntime) -> Result<(), Fail> {
    let no_form = Refusal::NoForm { place: 1 };
    refuses(&rt, &[counts(1, 1), member(0x0100_0502)], no_form)?;
    refuses(&rt, &[counts(1, 1), 0x2000_0502], no_form)?;
    let out_of_range = Refusal::OutOfRange { place: 1 };
    refuses(&rt, &[counts(1, 2), member(0x502), 0], out_of_range)?;
    refuses(&rt, &[counts(1, 2), member(0x502)], out_of_range)?;
    refuses(&rt, &[counts(1, 1), member(0x502), JOB], out_of_range)
}

#[test]
fn the_greatest_sheet_is_within_the_limits(rt: HostRuntime) -> Result<(), Fail> {
    let words = crowd(rt.alloc(), 24)?;
    let sheet = sheet_of(words.as_slice())?;
    assert_eq!(rt; (sheet.atom_count(), sheet.rule_count()), (216, 216));
    assert_eq!(rt; size_of(&sheet), 6168);
    assert_eq!(rt; (sheet.head(192), sheet.body_len(192)), (192, 30));
    assert_eq!(rt; (sheet.head(193), sheet.body_len(193)), (193, 8));
    assert_eq!(rt; (sheet.head(216), sheet.body_len(216)), (216, 8));
    Ok(())
}

// Rules and places of the greatest sheet with the atoms there, and whether they are positive.
const GREATEST: [(usize, usize, u32, bool); 13] = [
    (1, 1, 2, false),
    (1, 7, 8, false),
    (1, 8, 9, false),
    (1, 30, 185, false),
    (192, 1, 8, false),
    (192, 24, 185, false),
    (192, 30, 191, false),
    (193, 8, 8, false),
    (216, 1, 185, false),
    (216, 8, 192, false),
    (1, 31, 0, true),
    (216, 0, 0, true),
    (217, 1, 0, true),
];

#[test]
fn the_greatest_sheet_answers_in_and_out_of_range(rt: HostRuntime) -> Result<(), Fail> {
    let words = crowd(rt.alloc(), 24)?;
    let sheet = sheet_of(words.as_slice())?;
    let outside = [(0, 0, 0), (217, 0, 0), (usize::MAX, 0, 0)];
    check_source(&rt, &sheet, (216, 216), &outside, &GREATEST);
    Ok(())
}
