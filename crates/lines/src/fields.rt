// The fields of a line: words and numbers, each behind a space.
ghost use Rattle.std.specs.Prelude.{ℕ, ◌^◌, ◌<◌, ◌≤◌, List, IfOk, IsErrOf};
ghost use Rattle.std.specs.Option.{SomeIff};
ghost use Rattle.std.specs.Str.Parse.{AllDigits, digits_value};
ghost use Rattle.lines.specs.Lines.{Word, Number, Words, ReadsField};
ghost use Rattle.lines.specs.declared.error.LineError.TheVariants.{NotACall};

use crate::LineError;
use std::alloc::Global;

// A word has eight digits, and they stand behind a space.
const WORD_DIGITS: usize = 8;

const WORD_FIELD: usize = 1 + WORD_DIGITS;

// The words of the fields, if each field is that of a word.
pub(crate) fn read_words(heap: Global, fields: &[u8]) -> Result<Vec<u32>, LineError>
    ensures words { IfOk result (λ words. Words words.items fields.now) }
    ensures no_words { IsErrOf result NotACall → (words : List ℕ) → Words words fields.now → ⊥ }
{
    let mut words = Vec::new(heap);
    for field in fields.chunks(WORD_FIELD) {
        let word = read_word(field).ok_or(LineError::NotACall)?;
        words.push(word)?;
    }
    Ok(words)
}

fn read_word(field: &[u8]) -> Option<u32>
    ensures { ReadsField Word field.now result }
{
    let digits = field.strip_prefix(b" ")?;
    if digits.len() != WORD_DIGITS {
        return None;
    }
    read_digits(digits, 16)
}

pub(crate) fn read_number(field: &[u8]) -> Option<u32>
    ensures { ReadsField Number field.now result }
{
    let digits = field.strip_prefix(b" ")?;
    if digits.is_empty() {
        return None;
    }
    read_digits(digits, 10)
}

// The number that digits write, if it is below 2^32. The library's parse takes text, and a plus sign too.
fn read_digits(digits: &[u8], radix: u32) -> Option<u32>
    requires { (2 ≤ radix) × (radix ≤ 36) }
    ensures { SomeIff result (AllDigits radix digits.now × (digits_value radix digits.now < 2 ^ 32)) (digits_value radix digits.now) }
{
    let mut number: u32 = 0;
    for byte in digits {
        let digit = char::from(*byte).to_digit(radix)?;
        number = number.checked_mul(radix)?.checked_add(digit)?;
    }
    Some(number)
}
