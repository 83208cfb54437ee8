// The writer of demo units without its functions: the codes and the unit that are written, the answers, their laws and the claim.
#![tactic(auto)]

ghost use Rattle.std.specs.Prelude.{◌<◌};

// Where the next nibble goes: how many are written, and the last of them where their number is odd.
#[derive(Clone, Copy, Debug, PartialEq, Eq)]
pub struct NibbleWriter {
    pub pos: usize,
    pub high: u8,
    pub ghost nibble: { high < 16 },
}

// How many nibbles the top field has, and both fields.
#[derive(Clone, Copy, Debug, PartialEq, Eq)]
pub struct Ends {
    pub top: usize,
    pub all: usize,
}
