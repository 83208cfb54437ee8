// Why something is refused, and the number of each refusal (docs/FORMAT.md, table of refusals). A layer adds its own here.
// And the functions that several layers call.
#![tactic(auto)]

ghost use Rattle.std.specs.Prelude.{◌≡◌, ◌+◌, ◌*◌, min, set};
ghost use Rattle.outcome.specs.Outcome.{number_of};

// Why something is refused (docs/FORMAT.md, table of refusals).
#[derive(Clone, Copy, Debug, PartialEq, Eq)]
pub enum Refusal {
    // A byte of the index text is 80 or above.
    HighByte,
    // The width of a size line is no number.
    BadWidth,
    // The height of a size line is no number.
    BadHeight,
    // A token of a palette line is no number.
    BadToken,
    // A timestamp line has no time.
    NoTime,
    // A timestamp line has no position.
    NoPosition,
    // A field of a time is no number.
    BadTime,
    // A step of a time's sum leaves signed 64 bits.
    LongTime,
    // The position of a timestamp line is no number.
    BadPosition,
    // The position of a timestamp line is above 4,294,967,295.
    LargePosition,
    // A lent cue buffer has no room for a cue.
    ShortCues,
    // A stream is above 31.
    BadStream,
    // The text has no such cue.
    NoCue,
    // A cue's position is at the file's end or past it.
    PastFile,
    // No unit stands at a position, bare or in packets.
    NoUnit,
    // The lent scratch is shorter than the unit that packets hold.
    ShortScratch,
    // The bytes are too few for a unit's head.
    NoHead,
    // The length that a unit names, or the place of its first control block, is wrong.
    BadHead,
    // The parameters of a command go past the unit's end.
    CutParameters,
    // The size of a colour change does not count its own two bytes.
    SmallSize,
    // The bytes of a colour change are no list of bands.
    NoBandList,
    // A byte stands for no command.
    UnknownCommand,
    // A picture's last column or line is before its first.
    NoArea,
    // A unit, or a payload, has more than 32 bands.
    ManyBands,
    // The lent index map is shorter than width times height.
    ShortPixels,
    // The lent canvas is shorter than four times width times height.
    ShortCanvas,
    // The top field starts at the unit's end or past it.
    NoTopField,
    // A field has no bytes left where a row still wants a code.
    FieldRanOut,
    // The time at which a cue is shown or hidden leaves signed 64 bits.
    LongInstant,
    // A side of a picture to be written is not 1 to 4,096.
    BadSide,
    // The indices of a picture to be written are not width times height.
    NotAllIndices,
    // An index of a picture to be written is above 3.
    BadIndex,
    // The unit to be written would have more than 65,535 bytes.
    LongUnit,
    // The lent output is shorter than the unit.
    ShortOutput,
}

impl Refusal {
    // Its number in the table.
    // Ruled out: the number of another refusal.
    pub fn number(self) -> u8
        ensures { result ≡ number_of self }
    {
        match self {
            Refusal::HighByte => 1,
            Refusal::BadWidth => 2,
            Refusal::BadHeight => 3,
            Refusal::BadToken => 4,
            Refusal::NoTime => 5,
            Refusal::NoPosition => 6,
            Refusal::BadTime => 7,
            Refusal::LongTime => 8,
            Refusal::BadPosition => 9,
            Refusal::LargePosition => 41,
            Refusal::ShortCues => 10,
            Refusal::BadStream => 32,
            Refusal::NoCue => 11,
            Refusal::PastFile => 12,
            Refusal::NoUnit => 13,
            Refusal::ShortScratch => 14,
            Refusal::NoHead => 15,
            Refusal::BadHead => 16,
            Refusal::CutParameters => 17,
            Refusal::SmallSize => 18,
            Refusal::NoBandList => 19,
            Refusal::UnknownCommand => 20,
            Refusal::NoArea => 21,
            Refusal::ManyBands => 34,
            Refusal::ShortPixels => 22,
            Refusal::ShortCanvas => 24,
            Refusal::NoTopField => 25,
            Refusal::FieldRanOut => 26,
            Refusal::LongInstant => 33,
            Refusal::BadSide => 27,
            Refusal::NotAllIndices => 28,
            Refusal::BadIndex => 29,
            Refusal::LongUnit => 30,
            Refusal::ShortOutput => 31,
        }
    }
}

// The lesser of two numbers.
// Ruled out: the greater of the two; the first whatever the second is.
pub fn lesser(a: usize, b: usize) -> usize
    ensures { result ≡ min a b }
{
    a.min(b)
}

// The word that two bytes make, the high one first.
// Ruled out: the low byte first; the two bytes added.
pub fn word(a: u8, b: u8) -> u16
    ensures { result ≡ a * 256 + b }
{
    u16::from_be_bytes([a, b])
}

// The same as a place or a length.
// Ruled out: the low byte first.
pub fn word_of(a: u8, b: u8) -> usize
    ensures { result ≡ a * 256 + b }
{
    usize::from(word(a, b))
}

// An element stored at a place, where there is room for it.
// Ruled out: a store at another place; one past the end, which would trap.
pub fn put<T: Copy>(out: &mut [T], at: usize, x: T)
    ensures { out.new ≡ set out.old at x }
{
    if at < out.len() {
        out[at] = x;
    }
}
