// A whole unit: its control blocks, the rows of its two fields in the index map, and its bands in the record
// (docs/FORMAT.md, sections 3 to 5).
#![tactic(auto)]

ghost use Rattle.std.specs.Prelude.{◌≡◌, ◌≤◌, ◌<◌, ◌-◌, ◌+◌, ◌*◌, List, length};
ghost use Rattle.spu_model.specs.Claim.{Says, Measures};
ghost use Rattle.grammar.specs.Control.{Block};
ghost use Rattle.grammar.specs.Record.{Told, told, width, height};
ghost use Rattle.grammar.specs.Picture.{top_end};
ghost use Rattle.spu_model.specs.Unit.{offsets_of};
ghost use Rattle.outcome.specs.Outcome.{ok, answered};
ghost use Rattle.control_model.specs.Chain.{control_at};
ghost use Rattle.control_model.specs.Answers.{spu_of, control_answer};
ghost use Rattle.rle_model.specs.Answers.{field_answer, nothing};
ghost use Rattle.spu_model.specs.Unit.{has_bottom, rows_at, unit_at};
ghost use Rattle.spu_model.specs.Answers.{bottom_span, layout_of, spu_answer, RowsDecoded, Decoded};

use control_model::Spu;
use outcome::{Refusal, word_of};
use rle_model::{Counts, Span};
use spu_model::{Layout, Record};

// The byte before which the top field ends.
fn ending(control: usize, top: usize, bottom: usize) -> usize
    ensures { result ≡ top_end control (offsets_of top bottom) }
{
    if top < bottom {
        return bottom.min(control);
    }
    control
}

// Whether there is a bottom field.
fn has_bottom(control: usize, bottom: usize) -> bool
    ensures { result ≡ has_bottom control bottom }
{
    0 < bottom && bottom < control
}

// The bottom field, if there is one.
fn bottom_field(control: usize, bottom: usize) -> Option<Span>
    ensures { result ≡ bottom_span control bottom }
{
    let span = Span {
        from: bottom,
        to: control,
    };
    has_bottom(control, bottom).then_some(span)
}

// The record with what its rows count.
// Ruled out: the clipped codes in the place of all codes.
pub fn with_counts(spu: Spu, counts: Counts) -> Spu
    ensures { (t : Told) → spu ≡ spu_of t nothing → result ≡ spu_of t counts }
{
    Spu {
        codes: counts.codes,
        clipped: counts.clipped,
        ..spu
    }
}

// A unit and what its control blocks tell.
#[derive(Clone, Copy)]
struct Parsed<'a> {
    unit: &'a [u8],
    spu: Spu,
    ghost read: { ok spu ≡ control_answer unit.now },
}

impl<'a> Parsed<'a> {
    // Where the rows stand, and the size of the picture.
    fn laid_out(&self) -> Layout
        ensures { (result.width ≤ 65536) × (result.height ≤ 65536) × ((bs : List Block) → control_at self.now.unit.now ≡ ok bs → result ≡ layout_of self.now.unit.now (told bs)) }
    {
        let unit = self.unit;
        let spu = self.spu;
        let width = spu.x2 as usize + 1 - spu.x1 as usize;
        let height = spu.y2 as usize + 1 - spu.y1 as usize;
        let end = word_of(unit[0], unit[1]);
        let control = word_of(unit[2], unit[3]);
        let from = spu.top_rle_off as usize;
        let bottom = spu.bot_rle_off as usize;
        let to = ending(control, from, bottom);
        Layout {
            width,
            height,
            end,
            top: Span { from, to },
            bottom: bottom_field(control, bottom),
        }
    }

    // The codes of its rows, counted.
    fn measure_rows(&self) -> Result<Counts, Refusal>
        ensures { (bs : List Block) → control_at self.now.unit.now ≡ ok bs → answered result ≡ field_answer (width (told bs)) (rows_at self.now.unit.now (told bs)) }
    {
        let l = self.laid_out();
        if l.end <= l.top.from {
            return Err(Refusal::NoTopField);
        }
        fields::measure_fields(self.unit, l.top, l.bottom, l.width, l.height)
    }

    // The same rows in the index map, which is as found on a refusal. The two share the layout and the test alone: what they call and promise
    // is each its own.
    fn decode_rows(&self, pixels: &mut [u8]) -> Result<Counts, Refusal>
        requires { (bs : List Block) × (control_at self.now.unit.now ≡ ok bs) × (width (told bs) * height (told bs) ≤ length pixels.old) }
        ensures { (bs : List Block) → control_at self.now.unit.now ≡ ok bs → RowsDecoded self.now.unit.now (told bs) pixels.old (answered result) pixels.new }
    {
        let l = self.laid_out();
        if l.end <= l.top.from {
            return Err(Refusal::NoTopField);
        }
        fields::decode_rle_fields(self.unit, l.top, l.bottom, l.width, l.height, pixels)
    }

    // What it gives with no map.
    fn measure_told(&self) -> Result<Spu, Refusal>
        ensures { answered result ≡ spu_answer (unit_at self.now.unit.now) }
    {
        bands::unit_bands(self.unit, self.spu.band_words)?;
        let counts = self.measure_rows()?;
        Ok(with_counts(self.spu, counts))
    }

    // What it gives with a map.
    // Ruled out: a map painted where the bands are too many; a map too short before bands that are too many.
    fn decode_told(&self, pixels: &mut [u8]) -> Result<Record, Refusal>
        ensures { Decoded self.now.unit.now pixels.old (answered result) pixels.new }
    {
        let bands = bands::unit_bands(self.unit, self.spu.band_words)?;
        let l = self.laid_out();
        if pixels.len() < l.width * l.height {
            return Err(Refusal::ShortPixels);
        }
        let counts = self.decode_rows(pixels)?;
        Ok(Record {
            spu: with_counts(self.spu, counts),
            bands,
        })
    }
}

// The codes of the rows of a unit whose control blocks tell `spu`, counted.
// Ruled out: a bottom field at offset 0; a top field that goes on into the bottom field.
pub fn measure_rows(unit: &[u8], spu: Spu) -> Result<Counts, Refusal>
    requires { (bs : List Block) × (control_at unit.now ≡ ok bs) × (spu ≡ spu_of (told bs) nothing) }
    ensures { (bs : List Block) → control_at unit.now ≡ ok bs → answered result ≡ field_answer (width (told bs)) (rows_at unit.now (told bs)) }
{
    let parsed = Parsed { unit, spu };
    parsed.measure_rows()
}

// The same rows in the index map, which is as found on a refusal.
// Ruled out: a row that stays 0 left as found; a refusal after the first pixel is stored.
pub fn decode_rows(unit: &[u8], spu: Spu, pixels: &mut [u8]) -> Result<Counts, Refusal>
    requires { (bs : List Block) × (control_at unit.now ≡ ok bs) × (spu ≡ spu_of (told bs) nothing) × (width (told bs) * height (told bs) ≤ length pixels.old) }
    ensures { (bs : List Block) → control_at unit.now ≡ ok bs → RowsDecoded unit.now (told bs) pixels.old (answered result) pixels.new }
{
    let parsed = Parsed { unit, spu };
    parsed.decode_rows(pixels)
}

// A unit's record with what its rows count, with no map and without the words of its bands.
// Ruled out: a record of a unit whose rows are not all there; the number of one field's codes; a record of more than 32
// bands.
pub fn measure_spu(unit: &[u8]) -> Result<Spu, Refusal>
    ensures { (answered result ≡ spu_answer (unit_at unit.now)) × Measures unit.now (answered result) }
{
    let spu = control::parse_control(unit)?;
    let parsed = Parsed { unit, spu };
    parsed.measure_told()
}

// A unit's record with its bands in it, and its picture as colour numbers in the front of `pixels`, which is as found
// on a refusal.
// Ruled out: rows painted before the last is known to be whole; a row without codes left as found instead of 0.
pub fn parse_and_decode_spu(unit: &[u8], pixels: &mut [u8]) -> Result<Record, Refusal>
    ensures { Decoded unit.now pixels.old (answered result) pixels.new × Says unit.now pixels.old pixels.new (answered result) }
{
    let spu = control::parse_control(unit)?;
    let parsed = Parsed { unit, spu };
    parsed.decode_told(pixels)
}
