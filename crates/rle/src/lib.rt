// The rows of a picture's fields, read code by code into rows of the index map (docs/FORMAT.md, section 5).
#![tactic(auto)]

ghost use Rattle.std.specs.Prelude.{◌≡◌, ◌+◌, ◌*◌, ◌-◌, ◌%◌, ◌<◌, ◌≤◌, ◌^◌, length, replicate, set, take, leb};
ghost use Rattle.std.proofs.lemmas.List.Edits.{sets};
ghost use Rattle.outcome.specs.Outcome.{answered, IsOk, listed};
ghost use Rattle.rle_model.specs.Claim.{Says};
ghost use Rattle.rle_model.specs.Codes.{row_at, field_at};
ghost use Rattle.rle_model.specs.Field.{paint_field};
ghost use Rattle.rle_model.specs.Kept.{kept_run, left_after, place_after, paint_kept, KeptFits};
ghost use Rattle.rle_model.specs.Answers.{plus, last_counts, AtMost, measured, part_rows, Ready};
ghost use Rattle.rle_model.specs.Answers.{RowMeasured, FieldMeasured, RowFilled, RowsDecoded, Decoded};

use codes::{painted, read_code};
use nibbles::NibbleReader;
use outcome::{Refusal, put};
use rle_model::Counts;

// Rows of a picture of that width: the first from place `start` of the map on, each next one two rows on. That they are inside the map
// is asked beside it: the fact is of rows and map, and a struct that held the lent map too would have each function say that it is the same.
#[derive(Clone, Copy, Debug, PartialEq, Eq)]
pub struct Rows {
    pub width: usize,
    pub count: usize,
    pub start: usize,
}

// A row below this width has no run that a kept number could not hold.
const WIDEST: usize = 16384;

// Ruled out: the counts of one side alone; a sum that wraps.
pub fn plus_counts(a: Counts, b: Counts) -> Counts
    requires { AtMost (2 ^ 64 - 1) (plus a b) }
    ensures { result ≡ plus a b }
{
    Counts {
        codes: a.codes + b.codes,
        clipped: a.clipped + b.clipped,
    }
}

// What a row of so many codes counts, by whether the last one is clipped.
fn row_counts(codes: usize, clipped: bool) -> Counts
    ensures { result ≡ last_counts codes clipped }
{
    Counts {
        codes,
        clipped: usize::from(clipped),
    }
}

// A run of n pixels in the colour of a code, kept at place `at`, where there is room for it.
fn keep(kept: &mut [u16], at: usize, n: usize, value: usize)
    ensures { kept.new ≡ set kept.old at (kept_run n (value % 4)) }
{
    put(kept, at, (n % WIDEST * 4 + value % 4) as u16);
}

// A row's codes, counted, and kept from place `from` on; the reader goes on behind them.
fn measure_row(
    reader: &mut NibbleReader,
    width: usize,
    kept: &mut [u16],
    from: usize,
) -> Result<Counts, Refusal>
    requires { from ≤ reader.old.pos }
    ensures row { RowMeasured reader.old.buf.now width reader.old.pos from kept.old (answered result) kept.new reader.new.pos }
    ensures field { reader.new.buf ≡ reader.old.buf }
{
    let mut left = width;
    let mut codes: usize = 0;
    // a clipped code ends its row, so only the last one can be clipped
    let mut clipped = false;
    // no index is counted: each code says how far the row has come
    while 0 < left {
        let code = read_code(reader, left)?;
        let at = from + codes;
        let n = painted(left, code.size, code.value);
        keep(kept, at, n, code.value);
        codes += 1;
        clipped = code.clipped;
        left -= n;
    }
    Ok(row_counts(codes, clipped))
}

// A run of one colour. By place, and no `fill`, which stores the last pixel by itself: on runs of four pixels it takes 26.0 ms for 24.3
// (docs/DECISIONS.md, "Run codes").
// Ruled out: a pixel past the run; the pixels before it changed.
pub fn fill_run(pixels: &mut [u8], start: usize, count: usize, colour: u8)
    requires { start + count ≤ length pixels.old }
    ensures { pixels.new ≡ sets pixels.old start (replicate count colour) }
{
    for i in 0..count {
        pixels[start + i] = colour;
    }
}

// A row whose codes are all there, painted from place `start` on; the reader goes on behind them.
fn fill_row(reader: &mut NibbleReader, width: usize, start: usize, pixels: &mut [u8])
    requires room { start + width ≤ length pixels.old }
    requires there { IsOk (row_at reader.old.buf.now (length reader.old.buf.now) width reader.old.pos) }
    ensures row { RowFilled reader.old.buf.now width reader.old.pos start pixels.old pixels.new reader.new.pos }
    ensures field { reader.new.buf ≡ reader.old.buf }
{
    let mut left = width;
    let mut to = start;
    // no index is counted: each code says how far the row has come
    while 0 < left {
        let Ok(code) = read_code(reader, left) else {
            return;
        };
        let n = painted(left, code.size, code.value);
        let colour = (code.value % 4) as u8;
        fill_run(pixels, to, n, colour);
        left -= n;
        to += n;
    }
}

// The codes of a field of so many rows, counted, and kept as far as there is room.
// Ruled out: runs of a field that ran out left unsaid; a run kept twice.
pub fn measure_kept(
    field: &[u8],
    width: usize,
    rows: usize,
    kept: &mut [u16],
) -> Result<Counts, Refusal>
    ensures { FieldMeasured field.now width rows kept.old (answered result) kept.new }
{
    let mut counts = Counts {
        codes: 0,
        clipped: 0,
    };
    // rows of no pixels have no codes
    if width == 0 {
        return Ok(counts);
    }
    let mut reader = NibbleReader::new(field);
    for _ in 0..rows {
        let row = measure_row(&mut reader, width, kept, counts.codes)?;
        counts = plus_counts(counts, row);
        reader.align();
    }
    Ok(counts)
}

// The codes of a field of so many rows, counted.
// Ruled out: a count of pixels or of rows; rows accepted that the field has no bytes for.
pub fn measure_field(field: &[u8], width: usize, rows: usize) -> Result<Counts, Refusal>
    ensures { answered result ≡ measured field.now width rows }
{
    let mut kept = [0u16; 1];
    measure_kept(field, width, rows, &mut kept)
}

// A field whose codes are all there, painted into its rows, the first from place `rows.start` on, each next one two rows on.
fn fill_field(field: &[u8], rows: Rows, pixels: &mut [u8])
    requires room { rows.start + rows.count * (2 * rows.width) ≤ length pixels.old + rows.width }
    requires there { IsOk (field_at field.now (length field.now) rows.width rows.count 0) }
    ensures { pixels.new ≡ paint_field rows.width rows.start (listed (field_at field.now (length field.now) rows.width rows.count 0)) pixels.old }
{
    let width = rows.width;
    if width == 0 {
        return;
    }
    let mut reader = NibbleReader::new(field);
    let mut to = rows.start;
    for _ in 0..rows.count {
        fill_row(&mut reader, width, to, pixels);
        reader.align();
        to = to + width + width;
    }
}

// The pixels left of the row, or of the next row where none is.
fn left_after(width: usize, left: usize) -> usize
    ensures { result ≡ left_after width left }
{
    if left == 0 { width } else { left }
}

// The place to go on from: past the row between where none is left.
fn place_after(width: usize, left: usize, to: usize) -> usize
    requires { to + width < 2 ^ 64 }
    ensures { result ≡ place_after width left to }
{
    if left == 0 { to + width } else { to }
}

// Kept codes, painted from place `start` on: a row's end goes past the row between.
fn fill_kept(kept: &[u16], width: usize, start: usize, pixels: &mut [u8])
    requires { (width ≤ length pixels.old) × KeptFits (length pixels.old) width width start kept.now }
    ensures { pixels.new ≡ paint_kept width width start kept.now pixels.old }
{
    let mut left = width;
    let mut to = start;
    for &code in kept {
        let v = code as usize;
        let n = v / 4;
        let colour = (v % 4) as u8;
        fill_run(pixels, to, n, colour);
        let rest = left - n;
        to = place_after(width, rest, to + n);
        left = left_after(width, rest);
    }
}

// Whether `len` pixels hold width times height, a product that may be too large for a usize.
fn holds(len: usize, width: usize, height: usize) -> bool
    ensures { result ≡ leb (width * height) len }
{
    width == 0 || height <= len / width
}

// A field that was measured, painted into its rows.
// Ruled out: the row between painted; a row of the codes that were not kept left out.
pub fn fill_measured(field: &[u8], rows: Rows, codes: usize, kept: &[u16], pixels: &mut [u8])
    requires { (rows.width ≤ length pixels.old) × (rows.start + rows.count * (2 * rows.width) ≤ length pixels.old + rows.width) × Ready field.now rows.width rows.count codes kept.now }
    ensures { pixels.new ≡ paint_field rows.width rows.start (listed (part_rows field.now rows.width rows.count)) pixels.old }
{
    if codes <= kept.len() {
        if rows.width < WIDEST {
            fill_kept(&kept[..codes], rows.width, rows.start, pixels);
            return;
        }
    }
    // more codes than were kept, or longer runs: the codes are read again
    fill_field(field, rows, pixels);
}

// A field's rows, measured before the first pixel is stored.
fn decode_through(
    field: &[u8],
    rows: Rows,
    kept: &mut [u16],
    pixels: &mut [u8],
) -> Result<Counts, Refusal>
    requires { (rows.width ≤ length pixels.old) × (rows.start + rows.count * (2 * rows.width) ≤ length pixels.old + rows.width) }
    ensures { RowsDecoded field.now rows.width rows.count rows.start pixels.old (answered result) pixels.new }
{
    let counts = measure_kept(field, rows.width, rows.count, kept)?;
    fill_measured(field, rows, counts.codes, kept, pixels);
    Ok(counts)
}

// The same with room of its own for N codes.
fn decode_kept<const N: usize>(
    field: &[u8],
    rows: Rows,
    pixels: &mut [u8],
) -> Result<Counts, Refusal>
    requires few { N ≤ 65536 }
    requires fits { (rows.width ≤ length pixels.old) × (rows.start + rows.count * (2 * rows.width) ≤ length pixels.old + rows.width) }
    ensures { RowsDecoded field.now rows.width rows.count rows.start pixels.old (answered result) pixels.new }
{
    let mut kept = [0u16; N];
    decode_through(field, rows, &mut kept, pixels)
}

// The ladder is that of `fields::decode_both`, over other rows: each size is a constant of its own call.
// Ruled out: rows painted before the last is known to be whole; a count of what was kept instead of what was read.
pub fn decode_sized(field: &[u8], rows: Rows, pixels: &mut [u8]) -> Result<Counts, Refusal>
    requires { (rows.width ≤ length pixels.old) × (rows.start + rows.count * (2 * rows.width) ≤ length pixels.old + rows.width) }
    ensures { RowsDecoded field.now rows.width rows.count rows.start pixels.old (answered result) pixels.new }
{
    // room for as many codes as the field has nibbles, or 65,536, and no more than it can use: clearing it costs time
    if field.len() <= 1024 {
        return decode_kept::<2048>(field, rows, pixels);
    }
    if field.len() <= 8192 {
        return decode_kept::<16384>(field, rows, pixels);
    }
    decode_kept::<65536>(field, rows, pixels)
}

// The rows start_row, start_row + 2, .. below height of a map that holds them.
fn decode_rows(
    field: &[u8],
    width: usize,
    height: usize,
    start_row: usize,
    pixels: &mut [u8],
) -> Result<Counts, Refusal>
    requires { width * height ≤ length pixels.old }
    ensures { Decoded field.now width height start_row pixels.old (answered result) pixels.new }
{
    if height <= start_row {
        return Ok(Counts {
            codes: 0,
            clipped: 0,
        });
    }
    let span = height - start_row;
    let rows = Rows {
        width,
        count: span / 2 + span % 2,
        start: start_row * width,
    };
    decode_sized(field, rows, pixels)
}

// The rows start_row, start_row + 2, .. below height of a map of that width and height. On a refusal the map is as found.
// Ruled out: rows painted before the field is known to be whole; a map left as found where the field is accepted.
pub fn decode_rle_field(
    field: &[u8],
    width: usize,
    height: usize,
    start_row: usize,
    pixels: &mut [u8],
) -> Result<Counts, Refusal>
    ensures { Decoded field.now width height start_row pixels.old (answered result) pixels.new × Says field.now width height start_row pixels.old pixels.new (answered result) }
{
    if holds(pixels.len(), width, height) {
        return decode_rows(field, width, height, start_row, pixels);
    }
    Err(Refusal::ShortPixels)
}
