// The rules of any source as the words of a book, so that tests can compare all of them at once.
use crate::fixtures::{negative, opening, positive};
use rules::{Literal, RuleSource};
use std::alloc::{AllocError, Global};

pub(crate) fn encode<S: RuleSource>(heap: Global, source: &S) -> Result<Vec<u32>, AllocError> {
    let mut words = vec![in heap; opening(source.atom_count())]?;
    for rule in 1..=source.rule_count() {
        encode_rule(source, rule, &mut words)?;
    }
    Ok(words)
}

fn encode_rule<S: RuleSource>(
    source: &S,
    rule: usize,
    words: &mut Vec<u32>,
) -> Result<(), AllocError> {
    words.push(source.head(rule))?;
    for literal in source.body(rule) {
        words.push(literal_word(literal))?;
    }
    Ok(())
}

fn literal_word(literal: Literal) -> u32 {
    if literal.positive {
        positive(literal.atom)
    } else {
        negative(literal.atom)
    }
}
