// The forms of a line. They are read here and not by `lines`, so that each tries what the other stands on.
use std::alloc::{AllocError, Global};

#[derive(Drop)]
pub enum Line {
    Book(Vec<u32>),
    Plan(Vec<u32>),
    Status { atom: u32 },
}

// Empty, or a comment.
pub(crate) fn is_passed_over(text: &str) -> bool {
    text.is_empty() || text.starts_with('#')
}

// A name with words or with a number, if it is one of these; `trials_holds` has more names, which are none here.
pub(crate) fn read_line(heap: Global, text: &str) -> Result<Option<Line>, AllocError> {
    let (name, rest) = text.split_once(' ').unwrap_or((text, ""));
    match name {
        "book" => Ok(read_words(heap, rest)?.map(Line::Book)),
        "plan" => Ok(read_words(heap, rest)?.map(Line::Plan)),
        "status" => Ok(read_number(rest.trim()).map(|atom| Line::Status { atom })),
        _ => Ok(None),
    }
}

// Words between spaces, if all are words.
fn read_words(heap: Global, text: &str) -> Result<Option<Vec<u32>>, AllocError> {
    let mut words = Vec::new(heap);
    for part in text.split_whitespace() {
        let Some(word) = read_word(part) else {
            return Ok(None);
        };
        words.push(word)?;
    }
    Ok(Some(words))
}

// Eight hex digits.
fn read_word(text: &str) -> Option<u32> {
    if text.len() != 8 || text.starts_with('+') {
        return None;
    }
    u32::from_str_radix(text, 16).ok()
}

// A decimal number.
fn read_number(text: &str) -> Option<u32> {
    if text.starts_with('+') {
        return None;
    }
    text.parse().ok()
}
