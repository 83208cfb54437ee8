// The one call without its functions: what it answers, its definitions and those of painting, their laws and the claim on whole files.
#![tactic(auto)]

pub use bands_model::Four;
use clock_model::{Micros, Ticks};

// What a caller asks for.
#[derive(Clone, Copy, Debug, PartialEq, Eq)]
pub struct Request {
    pub cue: usize,
    pub stream: usize,
}

// What is shown of a cue.
#[derive(Clone, Copy, Debug, PartialEq, Eq)]
pub struct Shown {
    pub start: Micros,
    // The time up to the next cue, if another follows.
    pub duration: Option<Micros>,
    // Whether a start and a stop command stand in the unit, and the delays of the first start and of the last stop. No
    // Option: the record says beside a delay whether its command stood (docs/FORMAT.md, 3.6), and C gets both numbers.
    pub started: bool,
    pub stopped: bool,
    pub start_delay: Ticks,
    pub stop_delay: Ticks,
    // When the picture is shown; it never is where no start command stands.
    pub show: Option<Micros>,
    // When it is hidden, if it is.
    pub hide: Option<Micros>,
    // The place of the first pixel on the display.
    pub x1: u16,
    pub y1: u16,
    pub width: usize,
    pub height: usize,
    // How many codes the rows have, and how many of these are clipped.
    pub codes: usize,
    pub clipped: usize,
}
