// Run codes without their functions: nibbles, codes, the rows of one field and of both, with their answers, laws and claim.
#![tactic(auto)]

// A code of `size` nibbles that make `value`, and whether it is longer than what was left of its row.
#[derive(Clone, Copy, Debug, PartialEq, Eq)]
pub struct CodeRead {
    pub size: usize,
    pub value: usize,
    pub clipped: bool,
}

// What rows count.
#[derive(Clone, Copy, Debug, PartialEq, Eq)]
pub struct Counts {
    // Codes read, fills and clipped ones included.
    pub codes: usize,
    // Those of them that are longer than what was left of their row.
    pub clipped: usize,
}

// Bytes of a unit: from one place up to another.
#[derive(Clone, Copy, Debug, PartialEq, Eq)]
pub struct Span {
    pub from: usize,
    pub to: usize,
}
