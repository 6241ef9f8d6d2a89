// Words, and what the tests share: the worked book and sheet, plans and cases.
use base::{LoadError, Refusal};
use books::Book;
use case::Case;
use console::Outcome;
use rules::{Literal, RuleSource};
use sets::AtomSet;
use sharing::SharingSheet;
use std::alloc::{AllocError, Global};
use std::process::Abort;
use std::test::Fail;

pub(crate) fn opening(atoms: u32) -> u32 {
    0xE000_0000 | atoms
}

pub(crate) fn positive(atom: u32) -> u32 {
    0x2000_0000 | atom
}

pub(crate) fn negative(atom: u32) -> u32 {
    0x4000_0000 | atom
}

pub(crate) fn member(atom: u32) -> u32 {
    0x6000_0000 | atom
}

// 1 if not 2; 2 if not 1; 3 if 1; 4 if 5; 5 if 4.
pub(crate) const WORKED: [u32; 11] = [
    0xE000_0005,
    0x0000_0001,
    0x4000_0002,
    0x0000_0002,
    0x4000_0001,
    0x0000_0003,
    0x2000_0001,
    0x0000_0004,
    0x2000_0005,
    0x0000_0005,
    0x2000_0004,
];

// One head and two jobs of other inks that may go to it: 1 if not 2; 2 if not 1; 3 if not 1; 4 if not 2.
pub(crate) const WORKED_SHEET: [u32; 3] = [0xE000_4002, 0x6000_0501, 0x6000_0601];

pub(crate) fn book_of(heap: Global, words: &[u32]) -> Result<Book, LoadError> {
    let mut book = Book::new(heap);
    book.load(heap, words)?;
    Ok(book)
}

pub(crate) fn case_of(heap: Global, words: &[u32]) -> Result<Case, LoadError> {
    let book = book_of(heap, words)?;
    Ok(Case::new(heap, &book)?)
}

pub(crate) fn sheet_of(words: &[u32]) -> Result<SharingSheet, Fail> {
    let mut sheet = SharingSheet::new();
    sheet.load(words)?;
    Ok(sheet)
}

// The worked book, over which the plan 1, 3 stands.
pub(crate) fn planned(heap: Global) -> Result<Case, Fail> {
    let mut case = case_of(heap, &WORKED)?;
    case.offer(&[member(1), member(3)])?;
    Ok(case)
}

// The same with the hold list 2.
pub(crate) fn held(heap: Global) -> Result<Case, Fail> {
    let mut case = planned(heap)?;
    case.hold(&[member(2)])?;
    Ok(case)
}

// How many atoms and rules a source has, and what it answers about rules (their heads and lengths) and places in them.
pub(crate) fn check_source<S: RuleSource>(
    rt: &impl Abort,
    source: &S,
    counts: (u32, usize),
    rules: &[(usize, u32, usize)],
    literals: &[(usize, usize, u32, bool)],
) {
    assert_eq!(rt; (source.atom_count(), source.rule_count()), counts);
    for (rule, head, len) in rules {
        assert_eq!(rt; (source.head(*rule), source.body_len(*rule)), (*head, *len));
    }
    for (rule, place, atom, positive) in literals {
        let literal = Literal {
            atom: *atom,
            positive: *positive,
        };
        assert_eq!(rt; source.literal(*rule, *place), literal);
    }
}

// What a call writes into a buffer of some length.
pub(crate) fn written<T: Copy, F: FnOnce(&mut [T]) -> Result<usize, Refusal>>(
    heap: Global,
    filled: T,
    room: usize,
    call: F,
) -> Result<Vec<T>, Fail>
    requires { F.IsAlwaysCallable call }
{
    let mut buffer = vec![in heap; filled; room]?;
    let count = call(&mut buffer)?;
    buffer.truncate(count);
    Ok(buffer)
}

// One atom and the rule that it holds, as the bytes of a book.
pub(crate) const FACT: [u8; 8] = [1, 0, 0, 0xE0, 1, 0, 0, 0];

// The bytes of the plan that has this atom.
pub(crate) const MEMBER: [u8; 4] = [1, 0, 0, 0x60];

// Whether this is what the program prints of what it was told, and whether it passes.
pub(crate) fn check_printed(
    rt: &impl Abort,
    heap: Global,
    told: Result<Vec<u8>, LoadError>,
    passed: bool,
    text: &str,
) -> Result<(), Fail> {
    let outcome = Outcome::of(heap, told)?;
    assert_eq!(rt; outcome.passed, passed);
    assert_eq!(rt; outcome.text.as_slice(), text.as_bytes());
    Ok(())
}

// The set of the atoms on a list.
pub(crate) fn set_of(atoms: &[u32]) -> AtomSet {
    let mut set = AtomSet::new();
    for atom in atoms {
        let _ = set.insert(*atom);
    }
    set
}

// The atoms of a set of bits, an atom's bit being its number less 1, as the words of a plan.
pub(crate) fn plan_of(heap: Global, bits: u32) -> Result<Vec<u32>, AllocError> {
    let mut words = Vec::new(heap);
    for atom in 1..=6 {
        if (bits >> (atom - 1)) & 1 == 1 {
            words.push(member(atom))?;
        }
    }
    Ok(words)
}

// The sets of bits below an end that a case over a source passes as plans.
pub(crate) fn passed_plans<S: RuleSource>(
    heap: Global,
    source: &S,
    end: u32,
) -> Result<Vec<u32>, AllocError> {
    let mut case = Case::new(heap, source)?;
    let mut passed = Vec::new(heap);
    for bits in 0..end {
        let words = plan_of(heap, bits)?;
        if case.offer(words.as_slice()).is_ok() {
            passed.push(bits)?;
        }
    }
    Ok(passed)
}
