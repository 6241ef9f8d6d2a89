// What a book answers about its rules, and a table that is copied of it.
use crate::fixtures::{book_of, check_source};
use rules::{RuleSource, RuleTable};
use std::process::Abort;
use std::test::Fail;

// 2 if 1, 3 and not 2; 1 if not 3.
const MIXED: [u32; 7] = [
    0xE000_0003,
    0x0000_0002,
    0x2000_0001,
    0x2000_0003,
    0x4000_0002,
    0x0000_0001,
    0x4000_0003,
];

// Rules with their heads and lengths, inside and outside the numbers of the rules.
const RULES: [(usize, u32, usize); 5] = [
    (0, 0, 0),
    (1, 2, 3),
    (2, 1, 1),
    (3, 0, 0),
    (usize::MAX, 0, 0),
];

// Rules and places with the atoms there, and whether they are positive.
const LITERALS: [(usize, usize, u32, bool); 11] = [
    (0, 1, 0, true),
    (1, 0, 0, true),
    (1, 1, 1, true),
    (1, 2, 3, true),
    (1, 3, 2, false),
    (1, 4, 0, true),
    (1, usize::MAX, 0, true),
    (2, 0, 0, true),
    (2, 1, 3, false),
    (2, 2, 0, true),
    (3, 1, 0, true),
];

fn check_answers<S: RuleSource>(rt: &impl Abort, source: &S) {
    check_source(rt, source, (3, 2), &RULES, &LITERALS);
}

#[test]
fn a_book_answers_what_its_words_say(rt: HostRuntime) -> Result<(), Fail> {
    let book = book_of(rt.alloc(), &MIXED)?;
    check_answers(&rt, &book);
    Ok(())
}

#[test]
fn a_copy_answers_as_the_book_does(rt: HostRuntime) -> Result<(), Fail> {
    let book = book_of(rt.alloc(), &MIXED)?;
    let table = RuleTable::copy_of(rt.alloc(), &book)?;
    check_answers(&rt, &table);
    check_answers(&rt, &RuleTable::copy_of(rt.alloc(), &table)?);
    Ok(())
}
