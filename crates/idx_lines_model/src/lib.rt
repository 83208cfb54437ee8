// One line of the index text without its functions: what it says, the answers and their laws.
#![tactic(auto)]

// What a trimmed line says, if it says something.
#[derive(Clone, Copy, Debug, PartialEq, Eq)]
pub enum Directive {
    // Width and height.
    Size(u16, u16),
    // Colours of the palette, which stand in it; whether there is any.
    Palette(bool),
    // Start and position.
    Cue(i64, u32),
}

// The parts of a timestamp that count, trimmed: the time and the position.
#[derive(Clone, Copy, Debug, PartialEq, Eq)]
pub struct Found<'a> {
    pub time: Option<&'a [u8]>,
    pub position: Option<&'a [u8]>,
}

// A number without a sign, and the place after it.
#[derive(Clone, Copy, Debug, PartialEq, Eq)]
pub struct Counted {
    pub value: u64,
    pub end: usize,
}

// A field of a time, and where the next one starts.
#[derive(Clone, Copy, Debug, PartialEq, Eq)]
pub struct Field {
    pub value: i64,
    pub next: usize,
}
