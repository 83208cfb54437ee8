// Units from packets without their functions: one packet, the packets of a unit, their answers, laws and claim.
#![tactic(auto)]

// What the packet at a place is.
#[derive(Clone, Copy, Debug, PartialEq, Eq)]
pub enum PacketAt {
    // It keeps the bytes from the first place up to the second, where it ends.
    Keeps(usize, usize),
    // It keeps nothing; the place after it.
    Passes(usize),
}

// Where the unit at a position stands.
#[derive(Clone, Copy, Debug, PartialEq, Eq)]
pub enum UnitAt {
    // In the file, from the position on; its length.
    Bare(usize),
    // In scratch, at its front; its length.
    Joined(usize),
}
