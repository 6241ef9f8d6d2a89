// The words of a file.
ghost use Rattle.std.specs.Prelude.{◌≡◌, IfOk};
ghost use Rattle.texts.specs.Files as files;

use std::alloc::{AllocError, Global};

// Stands for the one to three bytes that may be left at the end: no list that comes in a file has a node word.
const BROKEN_WORD: u32 = 0x8000_0000;

// Four bytes to a word, the least significant first. The loop takes off what the definition does; `as_chunks` would need a law on that.
pub fn words_of(heap: Global, bytes: &[u8]) -> Result<Vec<u32>, AllocError>
    ensures { IfOk result (λ words. words.items ≡ files.words_of bytes.now) }
{
    let mut words = Vec::new(heap);
    let mut rest = bytes;
    while let Some((word, behind)) = rest.split_first_chunk::<4>() {
        words.push(u32::from_le_bytes(*word))?;
        rest = behind;
    }
    if !rest.is_empty() {
        words.push(BROKEN_WORD)?;
    }
    Ok(words)
}
