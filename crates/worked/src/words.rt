// Words, put together from a kind and a number.
use base::{Kind, Word};

const WORDS: [(Kind, u32, u32); 11] = [
    (Kind::Head, 1, 0x0000_0001),
    (Kind::Positive, 1, 0x2000_0001),
    (Kind::Negative, 1, 0x4000_0001),
    (Kind::Member, 1, 0x6000_0001),
    (Kind::TrueNode, 1024, 0x8000_0400),
    (Kind::FalseNode, 1024, 0xA000_0400),
    (Kind::Link, 0, 0xC000_0000),
    (Kind::Opening, 0x1FFF_FFFF, 0xFFFF_FFFF),
    (Kind::Head, 0x2000_0000, 0x0000_0000),
    (Kind::Member, 0xE000_0005, 0x6000_0005),
    (Kind::Link, u32::MAX, 0xDFFF_FFFF),
];

#[test]
fn a_word_has_its_kind_and_the_low_29_bits_of_its_number(rt: HostRuntime) {
    for (kind, number, word) in WORDS {
        let made = Word {
            kind,
            payload: number,
        };
        assert_eq!(rt; u32::from(made), word);
    }
}

#[test]
fn a_word_is_taken_apart(rt: HostRuntime) {
    for (kind, number, word) in WORDS {
        let taken = Word {
            kind,
            payload: number & 0x1FFF_FFFF,
        };
        assert_eq!(rt; Word::from(word), taken);
    }
}
