// Control blocks without their functions: what they tell, the answers, the definitions and their laws, and the words of
// all bands of a unit.
#![tactic(auto)]

ghost use Rattle.std.specs.Prelude.{◌≤◌, length};

use clock_model::Ticks;

// What the commands of a unit tell and what its rows count: the record of a unit, by the names of the original, but for
// the words of its bands, which do not go from command to command.
#[derive(Clone, Copy, Debug, PartialEq, Eq)]
pub struct Spu {
    // The wide numbers come first and the flags last, so that no byte is unused: unused ones would be carried from
    // command to command too.
    // The codes of both fields; 0 until the rows are read.
    pub codes: usize,
    // How many words the bands of all colour changes take. It parts the two numbers of codes: side by side the compiler
    // copies these with every command, as it does not see that they stay 0.
    pub band_words: usize,
    // Those of the codes that are clipped.
    pub clipped: usize,
    // The first and last column and the first and last line of the picture on the display.
    pub x1: u16,
    pub y1: u16,
    pub x2: u16,
    pub y2: u16,
    // The words of four palette selectors and of four alphas, colour 0 in the top nibble.
    pub palette_sel: u16,
    pub alpha: u16,
    // The delay words of two blocks: of the one whose start command, forced or not, comes before every other, and of the one whose stop command
    // comes after every other.
    pub start_delay_raw: Ticks,
    pub stop_delay_raw: Ticks,
    // Where the two fields start in the unit.
    pub top_rle_off: u16,
    pub bot_rle_off: u16,
    // Whether there is a start, a stop, a forced start, a colour change. A delay is 0 where there is none, and this is said beside it, as the
    // record is asked to (FORMAT 3.6).
    pub started: bool,
    pub stopped: bool,
    pub forced_display: bool,
    pub saw_chg_colcon: bool,
}

// The bytes of a unit, and where its control blocks end.
#[derive(Clone, Copy)]
pub struct Blocks<'a> {
    pub unit: &'a [u8],
    pub end: usize,
    pub ghost inside: { end ≤ length unit.now },
}

// Where the command after one starts, and the record with what that one tells.
#[derive(Clone, Copy, Debug, PartialEq, Eq)]
pub struct AfterCommand {
    pub at: usize,
    pub spu: Spu,
}

// Where reading commands and storing words stand.
#[derive(Clone, Copy, Debug, PartialEq, Eq)]
pub struct Place {
    pub at: usize,
    pub to: usize,
}
