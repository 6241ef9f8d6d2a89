// The lines that answers are printed in.
ghost use Rattle.std.specs.Prelude.{◌≡◌, IfOk, string_bytes};
ghost use Rattle.lines.specs.Answers.{answer_text, WordsLine};

use runs::{Answer, Reply};
use std::alloc::{AllocError, Global};

// What is printed for an answer.
pub fn answer_line(heap: Global, answer: &Answer) -> Result<String, AllocError>
    ensures { IfOk result (λ text. string_bytes text ≡ answer_text answer.now) }
{
    match answer {
        Ok(Reply::Passed) => String::from_str(heap, "passed\n"),
        Ok(Reply::Wrote(words)) => words_line(heap, words),
        Ok(Reply::Told(true)) => String::from_str(heap, "in\n"),
        Ok(Reply::Told(false)) => String::from_str(heap, "out\n"),
        Err(refusal) => format!(in heap; "{refusal}\n"),
    }
}

// How many words there are, and each of them behind a space.
pub fn words_line(heap: Global, words: &[u32]) -> Result<String, AllocError>
    ensures { IfOk result (λ text. WordsLine words.now (string_bytes text)) }
{
    let count = words.len();
    let mut text = format!(in heap; "{count}")?;
    for word in words {
        write!(text, " {word:08X}")?;
    }
    text.push('\n')?;
    Ok(text)
}
