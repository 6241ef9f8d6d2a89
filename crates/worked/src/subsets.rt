// A program with six atoms, a = 1 to f = 6, and all 64 sets of them.
use crate::fixtures::{book_of, passed_plans};
use models::derive;
use sets::AtomSet;
use std::test::Fail;

// a :- f, not b.  b :- e, not a.  e.  f :- e.  d :- c, e.  c :- d, f.
const SIX: [u32; 16] = [
    0xE000_0006,
    0x0000_0001,
    0x2000_0006,
    0x4000_0002,
    0x0000_0002,
    0x2000_0005,
    0x4000_0001,
    0x0000_0005,
    0x0000_0006,
    0x2000_0005,
    0x0000_0004,
    0x2000_0003,
    0x2000_0005,
    0x0000_0003,
    0x2000_0004,
    0x2000_0006,
];

// {a, e, f} and {b, e, f}, an atom's bit being its number less 1.
const ANSWER_SETS: [u32; 2] = [0b11_0001, 0b11_0010];

// The set with these bits.
fn set_of(bits: u32) -> AtomSet {
    let mut set = AtomSet::new();
    for atom in 1..=6 {
        if (bits >> (atom - 1)) & 1 == 1 {
            let _ = set.insert(atom);
        }
    }
    set
}

// The bits of a set.
fn bits_of(set: &AtomSet) -> u32 {
    let mut bits = 0;
    for atom in 1..=6 {
        if set.contains(atom) {
            bits |= 1 << (atom - 1);
        }
    }
    bits
}

#[test]
fn exactly_the_answer_sets_are_passed(rt: HostRuntime) -> Result<(), Fail> {
    let book = book_of(rt.alloc(), &SIX)?;
    let passed = passed_plans(rt.alloc(), &book, 64)?;
    assert_eq!(rt; passed.as_slice(), ANSWER_SETS.as_slice());
    Ok(())
}

#[test]
fn exactly_the_answer_sets_derive_themselves(rt: HostRuntime) -> Result<(), Fail> {
    let book = book_of(rt.alloc(), &SIX)?;
    let mut same = Vec::new(rt.alloc());
    for bits in 0..64 {
        if bits_of(&derive(&book, &set_of(bits))) == bits {
            same.push(bits)?;
        }
    }
    assert_eq!(rt; same.as_slice(), ANSWER_SETS.as_slice());
    Ok(())
}
