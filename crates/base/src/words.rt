// Words of 32 bits: the kind in bits 31 to 29, the payload in bits 28 to 0.
ghost use Rattle.std.specs.Prelude.{◌≡◌};
ghost use Rattle.base.specs.Words.{code, kind, payload, word};

#[derive(Clone, Copy, PartialEq, Eq, Debug)]
pub enum Kind {
    Head,
    Positive,
    Negative,
    Member,
    TrueNode,
    FalseNode,
    Link,
    Opening,
}

// A word, taken apart.
#[derive(Clone, Copy, PartialEq, Eq, Debug)]
pub struct Word {
    pub kind: Kind,
    pub payload: u32,
}

// The number that a kind has in a word.
impl From<Kind> for u32 {
    ghost from_gives = { λ k n. n ≡ code k };

    fn from(kind: Kind) -> u32 {
        match kind {
            Kind::Head => 0,
            Kind::Positive => 1,
            Kind::Negative => 2,
            Kind::Member => 3,
            Kind::TrueNode => 4,
            Kind::FalseNode => 5,
            Kind::Link => 6,
            Kind::Opening => 7,
        }
    }
}

impl From<u32> for Word {
    ghost from_gives = { λ w r. r ≡ record { kind = kind w; payload = payload w } };

    fn from(word: u32) -> Word {
        Word {
            kind: kind_of(word),
            payload: payload_of(word),
        }
    }
}

// Of a payload, a word has the low 29 bits.
impl From<Word> for u32 {
    ghost from_gives = { λ r w. w ≡ word r.kind (payload r.payload) };

    fn from(word: Word) -> u32 {
        (u32::from(word.kind) << 29) + payload_of(word.payload)
    }
}

fn kind_of(word: u32) -> Kind
    ensures { result ≡ kind word }
{
    match word >> 29 {
        0 => Kind::Head,
        1 => Kind::Positive,
        2 => Kind::Negative,
        3 => Kind::Member,
        4 => Kind::TrueNode,
        5 => Kind::FalseNode,
        6 => Kind::Link,
        _ => Kind::Opening,
    }
}

fn payload_of(word: u32) -> u32
    ensures { result ≡ payload word }
{
    word & 0x1fff_ffff
}
