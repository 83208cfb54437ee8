// Colour bands without their functions: the words of a payload, what stored words give at a place, the answers, laws and claim.
#![tactic(auto)]

// What stands where a band's header may stand. An Option in a Result would say the three cases in two places.
#[derive(Clone, Copy, Debug, PartialEq, Eq)]
pub enum Header {
    // The end of the list.
    End,
    // No header.
    Bad,
    // First line, last line, number of entries.
    Band(u16, u16, u16),
}

// The words of an entry.
#[derive(Clone, Copy, Debug, PartialEq, Eq)]
pub struct EntryWords {
    pub column: u16,
    pub selectors: u16,
    pub alphas: u16,
}

// Where the header and entry readers stop. Two of the three cases hold places, so a Result around them is no plainer.
#[derive(Clone, Copy, Debug, PartialEq, Eq)]
pub enum Stop {
    // At the end of the list: the place after its last word.
    End(usize),
    // Where there is no list.
    Bad,
    // After `DEEPEST` calls: the bytes to go, the entries to go of a band (0 where a header is next), the least column of the next, and the
    // place after the last word.
    More {
        rest: usize,
        left: u16,
        lo: u32,
        at: usize,
    },
}

// Four selectors and four alphas, colour 0 in the top nibble of each.
#[derive(Clone, Copy, Debug, PartialEq, Eq)]
pub struct Four {
    pub selectors: u16,
    pub alphas: u16,
}
