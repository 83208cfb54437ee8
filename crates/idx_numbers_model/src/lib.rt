// Parts, numbers and times of the index text without their functions, and their laws.
#![tactic(auto)]

// What a byte may be in a palette line: between tokens, or in one.
#[derive(Clone, Copy, Debug, PartialEq, Eq)]
pub enum Kind {
    Parting,
    Token,
}

// The digits at the front of a part: how many there are, none at all included, and their number.
#[derive(Clone, Copy, Debug, PartialEq, Eq)]
pub struct Digits {
    pub count: usize,
    pub value: u64,
}
