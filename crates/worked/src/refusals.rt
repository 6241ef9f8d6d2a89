// The number and the value of each cause.
use base::Refusal;

const CAUSES: [(Refusal, u8, u32); 17] = [
    (Refusal::NoForm { place: 31 }, 1, 31),
    (Refusal::OutOfRange { place: 32 }, 2, 32),
    (Refusal::NotRising { place: 33 }, 3, 33),
    (Refusal::PastLimit { place: 34 }, 4, 34),
    (Refusal::RuleNotSatisfied { rule: 35 }, 5, 35),
    (Refusal::NotDerived { atom: 36 }, 6, 36),
    (Refusal::NoPlan, 7, 0),
    (Refusal::NotPreAssumption { atom: 38 }, 8, 38),
    (Refusal::NotSettled { atom: 39 }, 9, 39),
    (Refusal::NoHoldList, 10, 0),
    (Refusal::NoSuchAtom { atom: 41 }, 11, 41),
    (Refusal::BufferTooShort { needed: 42 }, 12, 42),
    (Refusal::WrongRoot, 13, 0),
    (Refusal::WrongNode { place: 44 }, 14, 44),
    (Refusal::Unsupported { place: 45 }, 15, 45),
    (Refusal::Unreached { place: 46 }, 16, 46),
    (Refusal::Circular { place: u32::MAX }, 17, u32::MAX),
];

#[test]
fn each_cause_has_its_number_and_value(rt: HostRuntime) {
    for (refusal, number, value) in CAUSES {
        assert_eq!(rt; (refusal.number(), refusal.value()), (number, value));
    }
}
