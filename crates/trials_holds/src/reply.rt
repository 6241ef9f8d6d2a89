// What a line is answered where nothing is refused; not that of `lines`, so that each tries what the other stands on.
use std::fmt;

#[derive(Drop)]
pub enum Reply {
    Loaded,
    Passed,
    // Whether the atom is in the plan.
    Told(bool),
    // The words that were written.
    Words(Vec<u32>),
    // The bytes of a report, which ends its last line itself.
    Report(Vec<u8>),
}

impl fmt::Display for Reply {
    fn fmt<W: fmt::Write>(&self, f: &mut fmt::Formatter<W>) -> fmt::Result {
        match self {
            Reply::Loaded => write!(f, "loaded\n"),
            Reply::Passed => write!(f, "passed\n"),
            Reply::Told(true) => write!(f, "in\n"),
            Reply::Told(false) => write!(f, "out\n"),
            Reply::Words(words) => write_words(f, words),
            Reply::Report(text) => write_bytes(f, text),
        }
    }
}

// How many words there are, and each of them behind a space.
fn write_words<W: fmt::Write>(f: &mut fmt::Formatter<W>, words: &[u32]) -> fmt::Result {
    write!(f, "{}", words.len())?;
    for word in words {
        write!(f, " {word:08X}")?;
    }
    write!(f, "\n")
}

fn write_bytes<W: fmt::Write>(f: &mut fmt::Formatter<W>, text: &[u8]) -> fmt::Result {
    for byte in text {
        f.write_char(char::from(*byte))?;
    }
    Ok(())
}
