// The lines of a title without their functions: what is listed, the bytes of its lines, their laws and the claim.
#![tactic(auto)]

// A title's first line.
#[derive(Clone, Copy, Debug, PartialEq, Eq)]
pub struct Head {
    // How long the line is.
    pub size: usize,
    // How many cues follow, a line for each.
    pub cues: usize,
}
