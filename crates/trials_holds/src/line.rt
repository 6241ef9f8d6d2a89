// The forms of a line. They are read here and not by `lines`, so that each tries what the other stands on.
use std::alloc::{AllocError, Global};

#[derive(Drop)]
pub enum Line {
    Book(Vec<u32>),
    Sharing(Vec<u32>),
    Plan(Vec<u32>),
    Hold(Vec<u32>),
    Propose { room: u32 },
    Settled { room: u32 },
    Report { room: u32 },
    Status { atom: u32 },
}

// Empty, or a comment.
pub(crate) fn is_passed_over(text: &str) -> bool {
    text.is_empty() || text.starts_with('#')
}

// A name with words or with a number, if it is one of these.
pub(crate) fn read_line(heap: Global, text: &str) -> Result<Option<Line>, AllocError> {
    let (name, rest) = text.split_once(' ').unwrap_or((text, ""));
    match name {
        "book" | "sharing" | "plan" | "hold" => read_list(heap, name, rest),
        _ => Ok(read_question(name, rest.trim())),
    }
}

fn read_list(heap: Global, name: &str, rest: &str) -> Result<Option<Line>, AllocError> {
    let Some(words) = read_words(heap, rest)? else {
        return Ok(None);
    };
    Ok(Some(match name {
        "book" => Line::Book(words),
        "sharing" => Line::Sharing(words),
        "plan" => Line::Plan(words),
        _ => Line::Hold(words),
    }))
}

fn read_question(name: &str, rest: &str) -> Option<Line> {
    let number = read_number(rest)?;
    match name {
        "propose" => Some(Line::Propose { room: number }),
        "settled" => Some(Line::Settled { room: number }),
        "report" => Some(Line::Report { room: number }),
        "status" => Some(Line::Status { atom: number }),
        _ => None,
    }
}

// Words between spaces, if all are words.
fn read_words(heap: Global, text: &str) -> Result<Option<Vec<u32>>, AllocError> {
    let mut words = Vec::new(heap);
    for part in text.split_whitespace() {
        let Some(word) = read_word(part) else {
            return Ok(None);
        };
        words.push(word)?;
    }
    Ok(Some(words))
}

// Eight hex digits.
fn read_word(text: &str) -> Option<u32> {
    if text.len() != 8 || text.starts_with('+') {
        return None;
    }
    u32::from_str_radix(text, 16).ok()
}

// A decimal number.
fn read_number(text: &str) -> Option<u32> {
    if text.starts_with('+') {
        return None;
    }
    text.parse().ok()
}
