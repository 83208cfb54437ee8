// The index text without its functions: its answers, its definitions, their laws and the claim.
#![tactic(auto)]

use clock_model::Micros;

// What was seen of a text, on the way to one of its cues.
#[derive(Clone, Copy, Debug, PartialEq, Eq)]
pub struct Seen {
    // How many cues there are.
    pub cues: usize,
    pub width: u16,
    pub height: u16,
    // The colours are there whatever it says: black or greys, where no line gives one (FORMAT 1.9, 1.13). So it is no Option of them.
    pub has_palette: bool,
    // Start and position of the cue that is looked for, and the start of the one after it; 0 until they are met.
    pub start: i64,
    pub position: u32,
    pub next: i64,
}

// Size, palette and number of cues of a text.
#[derive(Clone, Copy, Debug, PartialEq, Eq)]
pub struct IdxAnswer {
    pub width: u16,
    pub height: u16,
    // Beside a palette that is there in either case, as in `Seen`.
    pub has_palette: bool,
    // Red, green and blue of 16 entries.
    pub palette: [u8; 48],
    pub cues: usize,
}

// One cue of a text.
#[derive(Clone, Copy, Debug, PartialEq, Eq)]
pub struct CueAnswer {
    pub start: Micros,
    pub position: u32,
    // The time up to the next cue, if another follows.
    pub duration: Option<Micros>,
    // Beside a palette that is there in either case, as in `Seen`.
    pub has_palette: bool,
    // Red, green and blue of 16 entries.
    pub palette: [u8; 48],
}
