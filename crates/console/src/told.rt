// What is printed in the end: what was told, or the line of the refusal in its place.
ghost use Rattle.std.specs.Prelude.{◌≡◌, ℕ, List, IfOk, string_bytes, vec_items};
ghost use Rattle.texts.specs.Texts.{refusal_line};
ghost use Rattle.console.specs.Telling.{Printed};

use base::{LoadError, Refusal};
use std::alloc::{AllocError, Global};
use texts::{REFUSAL_ROOM, write_refusal};

// What is told where nothing is refused: a text, or the bytes that a call wrote.
pub trait Telling: Sized {
    ghost bytes: { Self → List ℕ };

    // The line of a refusal.
    fn refused(heap: Global, refusal: &Refusal) -> Result<Self, AllocError>
        ensures { IfOk result (λ line. bytes line ≡ refusal_line refusal.now) };
}

impl Telling for String {
    ghost bytes = { string_bytes };

    fn refused(heap: Global, refusal: &Refusal) -> Result<String, AllocError> {
        texts::refusal_line(heap, refusal)
    }
}

impl Telling for Vec<u8> {
    ghost bytes = { vec_items };

    fn refused(heap: Global, refusal: &Refusal) -> Result<Vec<u8>, AllocError> {
        let mut line = vec![in heap; 0; REFUSAL_ROOM]?;
        let count = write_refusal(&mut line, refusal.number(), refusal.value()).unwrap();
        line.truncate(count);
        Ok(line)
    }
}

// What is printed, and whether all was passed.
#[derive(Drop)]
pub struct Outcome<X> {
    pub passed: bool,
    pub text: X,
}

impl<X: Telling> Outcome<X> {
    // Want of memory has no outcome.
    pub fn of(heap: Global, told: Result<X, LoadError>) -> Result<Outcome<X>, AllocError>
        ensures { IfOk result (λ o. Printed X.Telling.bytes told o.passed (X.Telling.bytes o.text)) }
    {
        match told {
            Ok(text) => Ok(Outcome { passed: true, text }),
            Err(LoadError::Refused(refusal)) => Ok(Outcome {
                passed: false,
                text: X::refused(heap, &refusal)?,
            }),
            Err(LoadError::OutOfMemory) => Err(AllocError),
        }
    }
}
