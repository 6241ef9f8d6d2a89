// Books at their limits.
use crate::fixtures::{WORKED, book_of, member, negative, opening, positive};
use base::{LoadError, Refusal};
use books::Book;
use rules::{Literal, RuleSource};
use std::alloc::{AllocError, Global};
use std::test::Fail;

fn past_limit(place: u32) -> Result<(), LoadError> {
    Err(LoadError::Refused(Refusal::PastLimit { place }))
}

// One atom, and rules with an empty body.
fn facts(heap: Global, rules: u32) -> Result<Vec<u32>, AllocError> {
    let mut words = vec![in heap; opening(1)]?;
    for _ in 0..rules {
        words.push(1)?;
    }
    Ok(words)
}

// One rule with positive atoms from 1 on.
fn long_body(heap: Global, atoms: u32) -> Result<Vec<u32>, AllocError> {
    let mut words = vec![in heap; opening(1024), 1]?;
    for atom in 1..=atoms {
        words.push(positive(atom))?;
    }
    Ok(words)
}

// 8,192 words: 4,095 rules of two words each and one of one word.
fn largest(heap: Global) -> Result<Vec<u32>, AllocError> {
    let mut words = vec![in heap; opening(1)]?;
    for _ in 0..4095 {
        words.push(1)?;
        words.push(positive(1))?;
    }
    words.push(1)?;
    Ok(words)
}

#[test]
fn a_book_has_at_most_1024_atoms(rt: HostRuntime) {
    let mut book = Book::new(rt.alloc());
    assert_eq!(rt; book.load(rt.alloc(), &[opening(1025)]), past_limit(0));
    assert_eq!(rt; book.load(rt.alloc(), &[u32::MAX]), past_limit(0));
    assert_eq!(rt; book.load(rt.alloc(), &[opening(1024)]), Ok(()));
    assert_eq!(rt; book.atom_count(), 1024);
    assert_eq!(rt; book.load(rt.alloc(), &[opening(0)]), Ok(()));
    assert_eq!(rt; book.atom_count(), 0);
}

#[test]
fn no_words_are_no_book(rt: HostRuntime) {
    let mut book = Book::new(rt.alloc());
    let missing = LoadError::Refused(Refusal::NoForm { place: 0 });
    assert_eq!(rt; book.load(rt.alloc(), &[]), Err(missing));
}

#[test]
fn a_body_has_at_most_64_words(rt: HostRuntime) -> Result<(), Fail> {
    let mut book = Book::new(rt.alloc());
    let mut words = long_body(rt.alloc(), 64)?;
    assert_eq!(rt; book.load(rt.alloc(), words.as_slice()), Ok(()));
    assert_eq!(rt; book.body_len(1), 64);
    words.push(negative(1))?;
    assert_eq!(rt; book.load(rt.alloc(), words.as_slice()), past_limit(66));
    Ok(())
}

#[test]
fn a_book_has_at_most_4096_rules(rt: HostRuntime) -> Result<(), Fail> {
    let mut book = Book::new(rt.alloc());
    let mut words = facts(rt.alloc(), 4096)?;
    assert_eq!(rt; book.load(rt.alloc(), words.as_slice()), Ok(()));
    assert_eq!(rt; book.rule_count(), 4096);
    words.push(1)?;
    assert_eq!(rt; book.load(rt.alloc(), words.as_slice()), past_limit(4097));
    Ok(())
}

#[test]
fn a_rule_past_the_limit_comes_before_its_atom(rt: HostRuntime) -> Result<(), Fail> {
    let mut book = Book::new(rt.alloc());
    let mut words = facts(rt.alloc(), 4096)?;
    words.push(0)?;
    assert_eq!(rt; book.load(rt.alloc(), words.as_slice()), past_limit(4097));
    assert_eq!(rt; book.rule_count(), 0);
    Ok(())
}

#[test]
fn a_book_has_at_most_8192_words(rt: HostRuntime) -> Result<(), Fail> {
    let mut book = Book::new(rt.alloc());
    let mut words = largest(rt.alloc())?;
    assert_eq!(rt; words.len(), 8192);
    assert_eq!(rt; book.load(rt.alloc(), words.as_slice()), Ok(()));
    assert_eq!(rt; (book.rule_count(), book.body_len(4095)), (4096, 1));
    words.push(positive(1))?;
    assert_eq!(rt; book.load(rt.alloc(), words.as_slice()), past_limit(8192));
    Ok(())
}

#[test]
fn a_word_past_the_limit_comes_before_its_form(rt: HostRuntime) -> Result<(), Fail> {
    let mut book = Book::new(rt.alloc());
    let mut words = largest(rt.alloc())?;
    words.push(member(0))?;
    assert_eq!(rt; book.load(rt.alloc(), words.as_slice()), past_limit(8192));
    Ok(())
}

#[test]
fn a_refused_load_leaves_the_book(rt: HostRuntime) -> Result<(), Fail> {
    let mut book = book_of(rt.alloc(), &WORKED)?;
    assert_eq!(rt; book.load(rt.alloc(), &[opening(1025)]), past_limit(0));
    assert!(rt; book.load(rt.alloc(), &[opening(2), 1, 2, 3]).is_err());
    assert_eq!(rt; (book.atom_count(), book.rule_count()), (5, 5));
    assert_eq!(rt; (book.head(3), book.body_len(3)), (3, 1));
    let one = Literal {
        atom: 1,
        positive: true,
    };
    assert_eq!(rt; book.literal(3, 1), one);
    Ok(())
}
