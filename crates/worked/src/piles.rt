// Sources that are made of other sources, over the worked book and the worked sheet.
use crate::encoding::encode;
use crate::fixtures::{WORKED, WORKED_SHEET, book_of, check_source, member, set_of, sheet_of};
use base::Refusal;
use case::Case;
use reducts::{NegativeReduct, Reduct};
use rules::{Literal, RuleSource, RuleTable};
use std::alloc::Global;
use std::process::Abort;
use std::test::Fail;

// The worked book without its rule for 2.
const WITHOUT_2: [u32; 9] = [
    0xE000_0005,
    0x0000_0001,
    0x4000_0002,
    0x0000_0003,
    0x2000_0001,
    0x0000_0004,
    0x2000_0005,
    0x0000_0005,
    0x2000_0004,
];

// The reduct of the worked book by {1, 3}: 1; 3 if 1; 4 if 5; 5 if 4.
const REDUCT_BY_1_3: [u32; 8] = [
    0xE000_0005,
    0x0000_0001,
    0x0000_0003,
    0x2000_0001,
    0x0000_0004,
    0x2000_0005,
    0x0000_0005,
    0x2000_0004,
];

// What stays of these without the rules for 2 and 4: 1; 3 if 1; 5 if 4.
const THREE_DEEP: [u32; 6] = [
    0xE000_0005,
    0x0000_0001,
    0x0000_0003,
    0x2000_0001,
    0x0000_0005,
    0x2000_0004,
];

fn encodes<S: RuleSource>(
    rt: &impl Abort,
    heap: Global,
    source: &S,
    words: &[u32],
) -> Result<(), Fail> {
    let encoded = encode(heap, source)?;
    assert_eq!(rt; encoded.as_slice(), words);
    Ok(())
}

// The pile of three over a source with the rules of the worked book.
fn check_pile<S: RuleSource + Drop>(rt: &impl Abort, heap: Global, source: S) -> Result<(), Fail> {
    let first = NegativeReduct::new(source, set_of(&[2]));
    encodes(rt, heap, &first, &WITHOUT_2)?;
    let second = Reduct::new(first, set_of(&[1, 3]));
    encodes(rt, heap, &second, &REDUCT_BY_1_3)?;
    let third = NegativeReduct::new(second, set_of(&[2, 4, 6, 1024]));
    encodes(rt, heap, &third, &THREE_DEEP)?;
    let mut case = Case::new(heap, &third)?;
    assert_eq!(rt;
        case.offer(&[member(1)]),
        Err(Refusal::RuleNotSatisfied { rule: 2 })
    );
    assert_eq!(rt; case.offer(&[member(1), member(3)]), Ok(()));
    assert_eq!(rt; case.hold(&[]), Ok(()));
    Ok(())
}

// What is made of a source with the rules of the worked sheet.
fn check_sheet<S: RuleSource>(rt: &impl Abort, heap: Global, source: &S) -> Result<(), Fail> {
    let negative = NegativeReduct::new(source, set_of(&[1]));
    encodes(
        rt,
        heap,
        &negative,
        &[0xE000_0004, 2, 0x4000_0001, 3, 0x4000_0001, 4, 0x4000_0002],
    )?;
    let reduct = Reduct::new(source, set_of(&[1, 4]));
    encodes(rt, heap, &reduct, &[0xE000_0004, 1, 4])?;
    let both = NegativeReduct::new(&reduct, set_of(&[1]));
    encodes(rt, heap, &both, &[0xE000_0004, 4])
}

#[test]
fn a_pile_over_a_book_means_what_its_sets_leave(rt: HostRuntime) -> Result<(), Fail> {
    let book = book_of(rt.alloc(), &WORKED)?;
    check_pile(&rt, rt.alloc(), &book)?;
    check_pile(&rt, rt.alloc(), &&book)?;
    check_pile(&rt, rt.alloc(), RuleTable::copy_of(rt.alloc(), &book)?)?;
    check_pile(&rt, rt.alloc(), book)
}

#[test]
fn a_pile_over_a_sheet_means_what_its_sets_leave(rt: HostRuntime) -> Result<(), Fail> {
    let sheet = sheet_of(&WORKED_SHEET)?;
    check_sheet(&rt, rt.alloc(), &sheet)?;
    check_sheet(&rt, rt.alloc(), &&sheet)?;
    check_sheet(&rt, rt.alloc(), &RuleTable::copy_of(rt.alloc(), &sheet)?)
}

#[test]
fn an_empty_set_leaves_all_rules(rt: HostRuntime) -> Result<(), Fail> {
    let book = book_of(rt.alloc(), &WORKED)?;
    let all = NegativeReduct::new(&book, set_of(&[]));
    encodes(&rt, rt.alloc(), &all, &WORKED)?;
    let above = NegativeReduct::new(&book, set_of(&[6, 1024]));
    encodes(&rt, rt.alloc(), &above, &WORKED)?;
    encodes(
        &rt,
        rt.alloc(),
        &Reduct::new(&book, set_of(&[6])),
        &[
            0xE000_0005,
            1,
            2,
            3,
            0x2000_0001,
            4,
            0x2000_0005,
            5,
            0x2000_0004,
        ],
    )
}

#[test]
fn a_full_set_leaves_no_rule_with_what_it_tests(rt: HostRuntime) -> Result<(), Fail> {
    let book = book_of(rt.alloc(), &WORKED)?;
    let none = NegativeReduct::new(&book, set_of(&[1, 2, 3, 4, 5, 6]));
    encodes(&rt, rt.alloc(), &none, &[0xE000_0005])?;
    let positive = Reduct::new(&book, set_of(&[1, 2, 7]));
    encodes(
        &rt,
        rt.alloc(),
        &positive,
        &[0xE000_0005, 3, 0x2000_0001, 4, 0x2000_0005, 5, 0x2000_0004],
    )
}

// Rules with their heads and lengths in the reduct by {1, 3} of the worked book.
const RULES: [(usize, u32, usize); 5] = [(0, 0, 0), (1, 1, 0), (2, 3, 1), (4, 5, 1), (5, 0, 0)];

// Rules and places with the atoms there; all are positive.
const LITERALS: [(usize, usize, u32, bool); 7] = [
    (0, 1, 0, true),
    (1, 1, 0, true),
    (2, 0, 0, true),
    (2, 1, 1, true),
    (2, 2, 0, true),
    (4, 1, 4, true),
    (5, 1, 0, true),
];

#[test]
fn a_reduct_answers_in_and_out_of_range(rt: HostRuntime) -> Result<(), Fail> {
    let reduct = Reduct::new(book_of(rt.alloc(), &WORKED)?, set_of(&[1, 3]));
    check_source(&rt, &reduct, (5, 4), &RULES, &LITERALS);
    Ok(())
}

#[test]
fn a_negative_reduct_answers_out_of_range_as_a_book(rt: HostRuntime) -> Result<(), Fail> {
    let rest = NegativeReduct::new(book_of(rt.alloc(), &WORKED)?, set_of(&[2]));
    for rule in [0, 5, usize::MAX] {
        assert_eq!(rt; (rest.head(rule), rest.body_len(rule)), (0, 0));
        assert_eq!(rt;
            (rest.literal(rule, 1).atom, rest.literal(1, rule).atom),
            (0, 0)
        );
    }
    let not_2 = Literal {
        atom: 2,
        positive: false,
    };
    assert_eq!(rt; rest.literal(1, 1), not_2);
    Ok(())
}

#[test]
fn a_made_source_tells_its_set(rt: HostRuntime) -> Result<(), Fail> {
    let book = book_of(rt.alloc(), &WORKED)?;
    let rest = NegativeReduct::new(&book, set_of(&[2, 1024]));
    let reduct = Reduct::new(&rest, set_of(&[1]));
    assert_eq!(rt; (rest.set().count(), rest.set().contains(1024)), (2, true));
    assert_eq!(rt; (reduct.set().count(), reduct.set().contains(1)), (1, true));
    Ok(())
}
