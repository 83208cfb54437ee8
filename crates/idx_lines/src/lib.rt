// The lines of the index text, one by one (docs/FORMAT.md, rules 1.2 to 1.8): what a trimmed line says, or its refusal.
#![tactic(auto)]

ghost use Rattle.std.specs.Prelude.{◌≡◌, ℕ, ◌≤◌, ◌<◌, ◌+◌, ◌*◌, ◌^◌, pos, neg_ℤ, length, drop};
ghost use Rattle.std.proofs.lemmas.List.Edits.{sets};
ghost use Rattle.grammar.specs.Parts;
ghost use Rattle.grammar.specs.IndexParts.{colon, letter_x};
ghost use Rattle.grammar.specs.Index.{timestamp_word, filepos_word};
ghost use Rattle.idx_numbers_model.specs.Parts as NumberParts;
ghost use Rattle.idx_numbers_model.specs.Parts.{part, split};
ghost use Rattle.idx_lines_model.specs.Lines.{halves, size_or, timestamp_at};
ghost use Rattle.outcome.specs.Outcome.{answered};
ghost use Rattle.idx_lines_model.specs.Answers.{line_says, lean, Noted, FoundIn, CountedAt, FrontBelow, FieldAt, time_at, position_with, rgb, TokensRead, LineRead};

use idx_lines_model::{Counted, Directive, Field, Found};
use idx_numbers::{
    digits, eight_at, leading, parse_hex, parse_position, starts, time_of, trim, unsigned, until,
};
use idx_numbers_model::Kind;
use outcome::Refusal;

// What follows `size:`.
fn parse_size(s: &[u8]) -> Result<Option<Directive>, Refusal>
    ensures { (i : Parts.Part) (at : ℕ) → line_says result ≡ lean (size_or i (halves letter_x (part at s.now))) }
{
    let a = until(s, b'x');
    if a >= s.len() {
        return Ok(None);
    }
    let left = trim(&s[..a]);
    let right = trim(&s[a + 1..]);
    let width = unsigned::<10>(left, 6553, 5).ok_or(Refusal::BadWidth)?;
    let height = unsigned::<10>(right, 6553, 5).ok_or(Refusal::BadHeight)?;
    // both are at most 65,535, so there is no refusal for one that does not fit
    Ok(Some(Directive::Size(width as u16, height as u16)))
}

// Entry k of the palette: the low 24 bits of v.
fn store(palette: &mut [u8; 48], k: usize, v: u64)
    requires { k < 16 }
    ensures { palette.new ≡ sets palette.old (3 * k) (rgb v) }
{
    let [.., red, green, blue] = v.to_be_bytes();
    palette[3 * k..3 * k + 3].copy_from_slice(&[red, green, blue]);
}

// What follows `palette:`. The first 16 tokens are read; where one of them is bad the palette is as found.
fn parse_palette(s: &[u8], palette: &mut [u8; 48]) -> Result<Option<Directive>, Refusal>
    ensures { TokensRead s.now palette.old result palette.new }
{
    let mut colours = *palette;
    let mut i = 0;
    for k in 0..16 {
        let g = i + leading(&s[i..], Kind::Parting);
        if g >= s.len() {
            *palette = colours;
            return Ok(Some(Directive::Palette(k > 0)));
        }
        let e = g + leading(&s[g..], Kind::Token);
        let colour = parse_hex(&s[g..e], 268435455).ok_or(Refusal::BadToken)?;
        store(&mut colours, k, colour);
        i = e;
    }
    *palette = colours;
    Ok(Some(Directive::Palette(true)))
}

// Whether a trimmed part gives a position.
fn is_filepos(p: &[u8]) -> bool
    ensures { result ≡ NumberParts.starts filepos_word p.now }
{
    starts(p, b"filepos:")
}

// Whether a line starts with `timestamp:`, here as the number of its first eight bytes and two more: on 8,000 short lines `starts` takes
// 70 µs for 49. A constant may call no `from_le_bytes`, so the number is written out.
fn is_timestamp(l: &[u8]) -> bool
    ensures { result ≡ NumberParts.starts timestamp_word l.now }
{
    if l.len() < 10 {
        return false;
    }
    if eight_at(l, 0) != 7881708861846808948 {
        return false;
    }
    if l[8] != b'p' {
        return false;
    }
    l[9] == b':'
}

// What was found so far, and a trimmed part more: the last position counts, and the first other part.
fn noted<'a>(found: Found<'a>, part: &'a [u8]) -> Found<'a>
    ensures { Noted part.now found.entry result }
{
    if is_filepos(part) {
        return Found {
            position: Some(part),
            ..found
        };
    }
    Found {
        time: found.time.or(Some(part)),
        ..found
    }
}

// The time and the position among the parts between commas, in one pass: each turn goes on behind the part that was read, which `until`
// finds eight bytes at a time, as no `split` does.
fn find_parts<'a>(s: &'a [u8]) -> Found<'a>
    ensures { FoundIn s.now result }
{
    let mut found = Found {
        time: None,
        position: None,
    };
    let mut i = 0;
    loop {
        let e = i + until(&s[i..], b',');
        let part = trim(&s[i..e]);
        found = noted(found, part);
        if e >= s.len() {
            return found;
        }
        i = e + 1;
    }
}

// The digits from place i on, if a colon or the end follows them: at most 2 to the power 63, or one less, by the last digit.
fn count_at(s: &[u8], i: usize, last: u64) -> Option<Counted>
    requires { (i ≤ length s.now) × (last < 10) }
    ensures { CountedAt s.now i (922337203685477580 * 10 + last) result }
{
    let found = digits::<10>(&s[i..], 922337203685477580, last)?;
    if found.count == 0 {
        return None;
    }
    let end = i + found.count;
    if end < s.len() && s[end] != b':' {
        return None;
    }
    Some(Counted {
        value: found.value,
        end,
    })
}

fn negated(v: u64) -> i64
    requires { v ≤ 2 ^ 63 }
    ensures { result ≡ neg_ℤ (pos v) }
{
    v.cast_signed().wrapping_neg()
}

// The field that starts at place i with a byte below the digits: a sign, or nothing good.
fn signed_at(s: &[u8], i: usize) -> Option<Field>
    requires { FrontBelow s.now i }
    ensures { FieldAt s.now i result }
{
    match s[i] {
        b'-' => {
            let counted = count_at(s, i + 1, 8)?;
            Some(Field {
                value: negated(counted.value),
                next: counted.end + 1,
            })
        }
        b'+' => {
            let counted = count_at(s, i + 1, 7)?;
            Some(Field {
                value: counted.value as i64,
                next: counted.end + 1,
            })
        }
        _ => None,
    }
}

// The field that starts at place i, or 0 where the time ended before it. A byte below the digits may be a sign.
fn field_at(s: &[u8], i: usize) -> Option<Field>
    ensures { FieldAt s.now i result }
{
    if i > s.len() {
        return Some(Field { value: 0, next: i });
    }
    if i == s.len() {
        return None;
    }
    if s[i] < b'0' {
        return signed_at(s, i);
    }
    let counted = count_at(s, i, 7)?;
    Some(Field {
        value: counted.value as i64,
        next: counted.end + 1,
    })
}

// The time of a cue, from its trimmed part.
fn parse_time(t: &[u8]) -> Result<i64, Refusal>
    ensures { (p : ℕ) → answered result ≡ time_at (split colon p t.now) }
{
    let h = field_at(t, 0).ok_or(Refusal::BadTime)?;
    let m = field_at(t, h.next).ok_or(Refusal::BadTime)?;
    let s = field_at(t, m.next).ok_or(Refusal::BadTime)?;
    let ms = field_at(t, s.next).ok_or(Refusal::BadTime)?;
    time_of(h.value, m.value, s.value, ms.value).ok_or(Refusal::LongTime)
}

// The position, from a trimmed part that starts `filepos:`, beside the time. It is read as a number of 64 bits first:
// with the smaller bound there, hexadecimal digits above it would be read as a decimal number.
fn with_position(start: i64, p: &[u8]) -> Result<Option<Directive>, Refusal>
    requires { 8 ≤ length p.now }
    ensures { line_says result ≡ position_with start (drop 8 p.now) }
{
    let x = trim(&p[8..]);
    let position = parse_position(x).ok_or(Refusal::BadPosition)?;
    let stored = u32::try_from(position).map_err(|_| Refusal::LargePosition)?;
    Ok(Some(Directive::Cue(start, stored)))
}

// What follows `timestamp:`.
fn parse_timestamp(s: &[u8]) -> Result<Option<Directive>, Refusal>
    ensures { (i : Parts.Part) (at : ℕ) → line_says result ≡ lean (timestamp_at i (part at s.now)) }
{
    let found = find_parts(s);
    let time = found.time.ok_or(Refusal::NoTime)?;
    let position = found.position.ok_or(Refusal::NoPosition)?;
    let start = parse_time(time)?;
    with_position(start, position)
}

// A trimmed line. The palette has the colours of a palette line after it.
// Ruled out: a colour of a line that is refused; a line whose word has other letters.
pub fn read_line(l: &[u8], palette: &mut [u8; 48]) -> Result<Option<Directive>, Refusal>
    ensures { LineRead l.now palette.old result palette.new }
{
    if is_timestamp(l) {
        return parse_timestamp(&l[10..]);
    }
    if starts(l, b"palette:") {
        return parse_palette(&l[8..], palette);
    }
    if starts(l, b"size:") {
        return parse_size(&l[5..]);
    }
    Ok(None)
}
