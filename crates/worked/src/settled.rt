// What rules settle without any plan.
use crate::fixtures::{WORKED, book_of, case_of, member, negative, opening, positive, written};
use base::Refusal;
use models::derive;
use sets::AtomSet;
use settling::settle;
use std::alloc::{AllocError, Global};
use std::process::Abort;
use std::test::Fail;

fn settled_true(atom: u32) -> u32 {
    0x8000_0000 | atom
}

fn settled_false(atom: u32) -> u32 {
    0xA000_0000 | atom
}

fn settles(rt: &impl Abort, heap: Global, book: &[u32], words: &[u32]) -> Result<(), Fail> {
    let case = case_of(heap, book)?;
    let out = written(heap, 7, 1024, |out| case.settled(out))?;
    assert_eq!(rt; out.as_slice(), words);
    Ok(())
}

// Each atom but the last if not the next.
fn chain(heap: Global, atoms: u32) -> Result<Vec<u32>, AllocError> {
    let mut words = vec![in heap; opening(atoms)]?;
    for atom in 1..atoms {
        words.push(atom)?;
        words.push(negative(atom.wrapping_add(1)))?;
    }
    Ok(words)
}

// The odd atoms up to 1,024 as a plan.
fn odd_plan(heap: Global) -> Result<Vec<u32>, AllocError> {
    let mut words = Vec::new(heap);
    for pair in 1..=512u32 {
        words.push(member(2 * pair - 1))?;
    }
    Ok(words)
}

// The odd atoms up to 1,024 settled true, and the others false.
fn odd_true(heap: Global) -> Result<Vec<u32>, AllocError> {
    let mut words = Vec::new(heap);
    for pair in 1..=512u32 {
        words.push(settled_true(2 * pair - 1))?;
        words.push(settled_false(2 * pair))?;
    }
    Ok(words)
}

#[test]
fn a_loop_of_positive_rules_is_settled_false(rt: HostRuntime) -> Result<(), Fail> {
    let words = [settled_false(4), settled_false(5)];
    settles(&rt, rt.alloc(), &WORKED, &words)
}

#[test]
fn a_fact_is_settled_true(rt: HostRuntime) -> Result<(), Fail> {
    let book = [
        opening(5),
        1,
        2,
        negative(1),
        3,
        negative(3),
        4,
        positive(1),
        negative(2),
    ];
    let words = [
        settled_true(1),
        settled_false(2),
        settled_true(4),
        settled_false(5),
    ];
    settles(&rt, rt.alloc(), &book, &words)
}

#[test]
fn no_atoms_are_settled_of_none(rt: HostRuntime) -> Result<(), Fail> {
    settles(&rt, rt.alloc(), &[opening(0)], &[])?;
    settles(&rt, rt.alloc(), &[opening(1), 1, negative(1)], &[])
}

#[test]
fn what_is_settled_needs_1024_words(rt: HostRuntime) -> Result<(), Fail> {
    let case = case_of(rt.alloc(), &WORKED)?;
    let mut short = [7; 1023];
    assert_eq!(rt;
        case.settled(&mut short),
        Err(Refusal::BufferTooShort { needed: 1024 })
    );
    assert_eq!(rt; short.as_slice(), [7; 1023].as_slice());
    let mut out = [7; 1024];
    assert_eq!(rt; case.settled(&mut out), Ok(2));
    assert_eq!(rt; [out[1], out[2], out[1023]], [settled_false(5), 7, 7]);
    Ok(())
}

#[test]
fn a_chain_of_1024_atoms_is_settled_to_its_beginning(rt: HostRuntime) -> Result<(), Fail> {
    let book = chain(rt.alloc(), 1024)?;
    let words = odd_true(rt.alloc())?;
    assert_eq!(rt; words.len(), 1024);
    settles(&rt, rt.alloc(), book.as_slice(), words.as_slice())
}

#[test]
fn one_round_settles_only_the_end_of_a_chain(rt: HostRuntime) -> Result<(), Fail> {
    let words = chain(rt.alloc(), 1024)?;
    let book = book_of(rt.alloc(), words.as_slice())?;
    let round = derive(&book, &derive(&book, &AtomSet::new()));
    assert_eq!(rt; (round.count(), round.contains(1023)), (1, true));
    let settled = settle(&book);
    assert_eq!(rt;
        (settled.trues.count(), settled.unsettled.count()),
        (512, 0)
    );
    Ok(())
}

#[test]
fn where_all_is_settled_nothing_is_assumed(rt: HostRuntime) -> Result<(), Fail> {
    let words = chain(rt.alloc(), 1024)?;
    let plan = odd_plan(rt.alloc())?;
    let mut case = case_of(rt.alloc(), words.as_slice())?;
    assert_eq!(rt; case.offer(plan.as_slice()), Ok(()));
    assert_eq!(rt; case.propose(&mut [7; 1024]), Ok(0));
    assert_eq!(rt;
        case.hold(&[member(2)]),
        Err(Refusal::NotPreAssumption { atom: 2 })
    );
    assert_eq!(rt; case.hold(&[]), Ok(()));
    Ok(())
}
