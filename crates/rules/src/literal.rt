// One atom of a rule's body, with its sign. An enum of the signs would need a third case, for no literal.
#[derive(Clone, Copy, PartialEq, Eq, Debug)]
pub struct Literal {
    pub atom: u32,
    pub positive: bool,
}

impl Literal {
    // What is answered where there is no literal.
    pub const NONE: Literal = Literal {
        atom: 0,
        positive: true,
    };
}
