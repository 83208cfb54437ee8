// Both fields of a picture: rows 0, 2, .. of its index map from the one and rows 1, 3, .. from the other (docs/FORMAT.md, 3.8 and 5.7).
#![tactic(auto)]

ghost use Rattle.std.specs.Prelude.{◌≡◌, ℕ, ◌+◌, ◌*◌, ◌<◌, ◌≤◌, ◌^◌, length};
ghost use Rattle.std.proofs.Math.Seq.{slice};
ghost use Rattle.outcome.specs.Outcome.{answered, ok};
ghost use Rattle.rle_model.specs.Field.{paint_field};
ghost use Rattle.rle_model.specs.Answers.{AtMost, field_answer, plus_field, measured, part_rows, Ready, Counted};
ghost use Rattle.rle_model.specs.Fields.{fields_at, is_there, from_of, to_of, FieldsDecoded, both_answer, blank_rows, BothFit, BothDecoded};

use outcome::{Refusal, lesser};
use rle::{Rows, decode_sized, fill_measured, fill_run, measure_field, measure_kept, plus_counts};
use rle_model::Counts;
pub use rle_model::Span;

// Two fields of one width: `rows` rows of the upper one, and `more` of the lower one. That both fit a map is asked beside it, as of `Rows`.
#[derive(Clone, Copy)]
struct Both<'a> {
    upper: &'a [u8],
    lower: &'a [u8],
    width: usize,
    rows: usize,
    more: usize,
}

// The bytes of a unit from one place up to another, none where the first is past the second.
fn field_bytes(unit: &[u8], from: usize, to: usize) -> &[u8]
    requires { to ≤ length unit.now }
    ensures { result.now ≡ slice from to unit.now }
{
    let start = lesser(from, to);
    &unit[start..to]
}

// The counts so far, and those of a field.
fn measure_more(field: &[u8], width: usize, rows: usize, counts: Counts) -> Result<Counts, Refusal>
    requires { (n : ℕ) × AtMost n counts × (n + rows * width < 2 ^ 64) }
    ensures { answered result ≡ plus_field counts (measured field.now width rows) }
{
    let more = measure_field(field, width, rows)?;
    Ok(plus_counts(counts, more))
}

// The codes of two fields, counted.
fn measure_both(both: Both) -> Result<Counts, Refusal>
    requires { both.rows * both.width + both.more * both.width < 2 ^ 64 }
    ensures { answered result ≡ both_answer both.entry.width (part_rows both.entry.upper.now both.entry.width both.entry.rows) (part_rows both.entry.lower.now both.entry.width both.entry.more) }
{
    let counts = measure_field(both.upper, both.width, both.rows)?;
    measure_more(both.lower, both.width, both.more, counts)
}

// The codes of both fields of a picture, counted; there may be no bottom field.
// Ruled out: codes of one field alone; a bottom field read where there is none.
pub fn measure_fields(
    unit: &[u8],
    top: Span,
    bottom: Option<Span>,
    width: usize,
    height: usize,
) -> Result<Counts, Refusal>
    requires { (top.to ≤ length unit.now) × (to_of bottom ≤ length unit.now) × (width * height < 2 ^ 64) }
    ensures { answered result ≡ field_answer width (fields_at unit.now top.from top.to (from_of bottom) (to_of bottom) (is_there bottom) width height) }
{
    let more = height / 2;
    let rows = more + height % 2;
    let upper = field_bytes(unit, top.from, top.to);
    match bottom {
        Some(span) => {
            let lower = field_bytes(unit, span.from, span.to);
            let both = Both {
                upper,
                lower,
                width,
                rows,
                more,
            };
            measure_both(both)
        }
        None => measure_field(upper, width, rows),
    }
}

// Rows that stay 0: the first from place `start` on, each next one two rows on.
fn fill_blank(width: usize, rows: usize, start: usize, pixels: &mut [u8])
    requires { start + rows * (2 * width) ≤ length pixels.old + width }
    ensures { pixels.new ≡ paint_field width start (blank_rows rows) pixels.old }
{
    let mut to = start;
    for _ in 0..rows {
        fill_run(pixels, to, width, 0);
        to = to + width + width;
    }
}

// The rows 0, 2, .. of a field, and rows 1, 3, .. that stay 0.
fn decode_upper(
    upper: &[u8],
    width: usize,
    rows: usize,
    more: usize,
    pixels: &mut [u8],
) -> Result<Counts, Refusal>
    requires { BothFit (length pixels.old) width rows more }
    ensures { BothDecoded width (part_rows upper.now width rows) (ok (blank_rows more)) pixels.old (answered result) pixels.new }
{
    let even = Rows {
        width,
        count: rows,
        start: 0,
    };
    let counts = decode_sized(upper, even, pixels)?;
    fill_blank(width, more, width, pixels);
    Ok(counts)
}

// The rows 0, 2, .. of a field, and rows 1, 3, .. of one that was measured.
fn decode_over(
    both: Both,
    counts: Counts,
    kept: &[u16],
    pixels: &mut [u8],
) -> Result<Counts, Refusal>
    requires both_fit { BothFit (length pixels.old) both.width both.rows both.more }
    requires measured { Counted both.lower.now both.width both.more counts × Ready both.lower.now both.width both.more counts.codes kept.now }
    ensures { BothDecoded both.entry.width (part_rows both.entry.upper.now both.entry.width both.entry.rows) (part_rows both.entry.lower.now both.entry.width both.entry.more) pixels.old (answered result) pixels.new }
{
    let even = Rows {
        width: both.width,
        count: both.rows,
        start: 0,
    };
    let first = decode_sized(both.upper, even, pixels)?;
    let odd = Rows {
        width: both.width,
        count: both.more,
        start: both.width,
    };
    fill_measured(both.lower, odd, counts.codes, kept, pixels);
    Ok(plus_counts(first, counts))
}

// Two fields, both measured before the first pixel is stored: rows 0, 2, .. and rows 1, 3, .. . In its caller's frame, so that a unit takes no
// more stack than the header gives it.
#[inline(always)]
fn decode_both_through(both: Both, kept: &mut [u16], pixels: &mut [u8]) -> Result<Counts, Refusal>
    requires { BothFit (length pixels.old) both.width both.rows both.more }
    ensures { BothDecoded both.entry.width (part_rows both.entry.upper.now both.entry.width both.entry.rows) (part_rows both.entry.lower.now both.entry.width both.entry.more) pixels.old (answered result) pixels.new }
{
    let counts = measure_kept(both.lower, both.width, both.more, kept)?;
    decode_over(both, counts, kept, pixels)
}

// The same with room of its own for N codes of the second field.
fn decode_both_kept<const N: usize>(both: Both, pixels: &mut [u8]) -> Result<Counts, Refusal>
    requires few { N ≤ 65536 }
    requires fits { BothFit (length pixels.old) both.width both.rows both.more }
    ensures { BothDecoded both.entry.width (part_rows both.entry.upper.now both.entry.width both.entry.rows) (part_rows both.entry.lower.now both.entry.width both.entry.more) pixels.old (answered result) pixels.new }
{
    let mut kept = [0u16; N];
    decode_both_through(both, &mut kept, pixels)
}

// As `rle::decode_sized`, with room by the length of the second field.
fn decode_both(both: Both, pixels: &mut [u8]) -> Result<Counts, Refusal>
    requires { BothFit (length pixels.old) both.width both.rows both.more }
    ensures { BothDecoded both.entry.width (part_rows both.entry.upper.now both.entry.width both.entry.rows) (part_rows both.entry.lower.now both.entry.width both.entry.more) pixels.old (answered result) pixels.new }
{
    if both.lower.len() <= 1024 {
        return decode_both_kept::<2048>(both, pixels);
    }
    if both.lower.len() <= 8192 {
        return decode_both_kept::<16384>(both, pixels);
    }
    decode_both_kept::<65536>(both, pixels)
}

// Both fields decoded into a map that holds them; rows 1, 3, .. stay 0 where there is no bottom field.
// On a refusal the map is as found.
// Ruled out: a top field painted under a bottom field that is refused; rows left as found where there is no bottom field.
pub fn decode_rle_fields(
    unit: &[u8],
    top: Span,
    bottom: Option<Span>,
    width: usize,
    height: usize,
    pixels: &mut [u8],
) -> Result<Counts, Refusal>
    requires { (top.to ≤ length unit.now) × (to_of bottom ≤ length unit.now) × (width * height ≤ length pixels.old) }
    ensures { FieldsDecoded unit.now top.from top.to (from_of bottom) (to_of bottom) (is_there bottom) width height pixels.old (answered result) pixels.new }
{
    if height == 0 {
        return Ok(Counts {
            codes: 0,
            clipped: 0,
        });
    }
    let more = height / 2;
    let rows = more + height % 2;
    let upper = field_bytes(unit, top.from, top.to);
    match bottom {
        Some(span) => {
            let lower = field_bytes(unit, span.from, span.to);
            let both = Both {
                upper,
                lower,
                width,
                rows,
                more,
            };
            decode_both(both, pixels)
        }
        None => decode_upper(upper, width, rows, more, pixels),
    }
}
