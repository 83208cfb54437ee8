// The functions that `vobsub_c_c` exports for C and Rust, thin over those of the layers: an answer is its refusal, 0 where there is none, and its
// value goes where the caller says, which is as found on a refusal.
// Each is a `match` of its own: an inner function with `?` would state every clause a second time, and `map` with a closure that stores says
// nothing of what is lent on a refusal. An array that is a field goes through a variable, as the borrow checker asks.
#![tactic(auto)]

ghost use Rattle.grammar.specs.Reading.{wanted};
ghost use Rattle.vobsub_model.specs.Call.{lent};
ghost use Rattle.vobsub_c.specs.Answers.{BandsGiven, UnitExtracted, UnitUndisturbed, FieldDecoded, BodyFound, UnitDecoded, UnitWritten, IndexGiven, CueGiven, CueDecoded, CueUndisturbed};

use outcome::Refusal;
use ps_model::UnitAt;
use vobsub_numbers::{
    cue_numbers_of, idx_numbers_of, numbers_of, shown_numbers_of, shown_times_of,
};

// The bands in a payload, as words with 0 after them, and how many words they take.
// Ruled out: a count set on a refusal; an array written on a refusal.
pub fn vobsub_parse_chg_colcon_payload(
    payload: &[u8],
    bands: &mut [u16; 1536],
    count: &mut usize,
) -> u8
    ensures { BandsGiven payload.now bands.old count.old result bands.new count.new }
{
    match chg_colcon::parse_chg_colcon_payload(payload, bands) {
        Ok(n) => {
            *count = n;
            0
        }
        Err(refusal) => refusal.number(),
    }
}

// The unit of a stream at a position of the file, its length, and whether it is in the front of scratch (1) or in the
// file (0).
// Ruled out: a length set on a refusal; a unit in scratch that is said to be in the file.
pub fn vobsub_extract_spu(
    file: &[u8],
    position: usize,
    stream: usize,
    scratch: &mut [u8],
    length: &mut usize,
    joined: &mut u8,
) -> u8
    ensures { UnitExtracted file.now position stream scratch.old length.old joined.old result scratch.new length.new joined.new
        × UnitUndisturbed file.now position stream scratch.old length.old joined.old result scratch.new length.new joined.new }
{
    match ps::extract_spu(file, position, stream, scratch) {
        Ok(UnitAt::Bare(n)) => {
            *length = n;
            *joined = 0;
            0
        }
        Ok(UnitAt::Joined(n)) => {
            *length = n;
            *joined = 1;
            0
        }
        Err(refusal) => refusal.number(),
    }
}

// Where the body of a PES starts.
// Ruled out: a place set where there is no body; the body's length for its place.
pub fn vobsub_parse_pes_body(pes: &[u8], body: &mut usize) -> u8
    ensures { BodyFound pes.now body.old result body.new }
{
    match packets::parse_pes_body(pes) {
        Some(rest) => {
            *body = pes.len() - rest.len();
            0
        }
        None => Refusal::NoUnit.number(),
    }
}

// The rows start_row, start_row + 2, .. of a map of that width and height, how many codes they have, and how many of
// them are clipped.
// Ruled out: a number set on a refusal; the numbers in each other's place; rows of the other field painted.
pub fn vobsub_decode_rle_field(
    field: &[u8],
    width: usize,
    height: usize,
    start_row: usize,
    pixels: &mut [u8],
    codes: &mut usize,
    clipped: &mut usize,
) -> u8
    ensures { FieldDecoded field.now width height start_row pixels.old codes.old clipped.old result pixels.new codes.new clipped.new }
{
    match rle::decode_rle_field(field, width, height, start_row, pixels) {
        Ok(counts) => {
            *codes = counts.codes;
            *clipped = counts.clipped;
            0
        }
        Err(refusal) => refusal.number(),
    }
}

// A unit's picture as colour numbers in the front of `pixels`, its bands as words with 0 after them, and the numbers of
// its record.
// Ruled out: a record stored on a refusal; a unit accepted whose record is left as found.
pub fn vobsub_parse_and_decode_spu(
    unit: &[u8],
    pixels: &mut [u8],
    bands: &mut [u16; 1536],
    numbers: &mut [usize; 17],
) -> u8
    ensures { UnitDecoded unit.now pixels.old bands.old numbers.old result pixels.new bands.new numbers.new }
{
    match spu::parse_and_decode_spu(unit, pixels) {
        Ok(record) => {
            let words = record.bands;
            *bands = words;
            *numbers = numbers_of(record.spu);
            0
        }
        Err(refusal) => refusal.number(),
    }
}

// A picture as a unit in the front of `out`, and the unit's length.
// Ruled out: a length set on a refusal; bytes behind the unit changed.
pub fn vobsub_build_demo_spu(
    width: usize,
    height: usize,
    indices: &[u8],
    out: &mut [u8],
    length: &mut usize,
) -> u8
    ensures { UnitWritten width height indices.now out.old length.old result out.new length.new }
{
    match demo::build_demo_spu(width, height, indices, out) {
        Ok(n) => {
            *length = n;
            0
        }
        Err(refusal) => refusal.number(),
    }
}

// Size, palette and cues of an index text: start and position of each cue go to the front of the lent buffers.
// Ruled out: a palette or a size stored on a refusal; a text accepted whose palette is left as found.
pub fn vobsub_parse_idx(
    text: &[u8],
    starts: &mut [i64],
    positions: &mut [u32],
    palette: &mut [u8; 48],
    numbers: &mut [usize; 4],
) -> u8
    ensures { IndexGiven text.now starts.old positions.old palette.old numbers.old result starts.new positions.new palette.new numbers.new }
{
    match idx::parse_idx(text, starts, positions) {
        Ok(index) => {
            let colours = index.palette;
            *palette = colours;
            *numbers = idx_numbers_of(index);
            0
        }
        Err(refusal) => refusal.number(),
    }
}

// One cue of an index text: its start, its other numbers, and the text's palette.
// Ruled out: a start set on a refusal; the duration for the start.
pub fn vobsub_pick_cue(
    text: &[u8],
    cue: usize,
    start: &mut i64,
    palette: &mut [u8; 48],
    numbers: &mut [u64; 4],
) -> u8
    ensures { CueGiven text.now cue start.old palette.old numbers.old result start.new palette.new numbers.new }
{
    match idx::pick_cue(text, cue) {
        Ok(picked) => {
            let colours = picked.palette;
            *start = picked.start.0;
            *palette = colours;
            *numbers = cue_numbers_of(picked);
            0
        }
        Err(refusal) => refusal.number(),
    }
}

// One cue of a title in one stream, from index text and file: its canvas in the front of `canvas`, its index map in the
// front of `pixels`, its unit in the front of `scratch` where packets hold it, its start with its show and hide times,
// and its other numbers.
// Ruled out: times or numbers set on a refusal; a canvas whose times are left as found.
pub fn vobsub_decode_cue(
    text: &[u8],
    file: &[u8],
    cue: usize,
    stream: usize,
    scratch: &mut [u8],
    pixels: &mut [u8],
    canvas: &mut [u8],
    times: &mut [i64; 3],
    numbers: &mut [u64; 13],
) -> u8
    ensures { CueDecoded text.now file.now (wanted cue stream) (lent scratch.old pixels.old canvas.old) times.old numbers.old result (lent scratch.new pixels.new canvas.new) times.new numbers.new
        × CueUndisturbed text.now file.now (wanted cue stream) (lent scratch.old pixels.old canvas.old) times.old numbers.old result (lent scratch.new pixels.new canvas.new) times.new numbers.new }
{
    match vobsub::decode_cue(text, file, cue, stream, scratch, pixels, canvas) {
        Ok(s) => {
            *times = shown_times_of(s);
            *numbers = shown_numbers_of(s);
            0
        }
        Err(refusal) => refusal.number(),
    }
}
