// Parts of the index text and the numbers in them (docs/FORMAT.md, rules 1.1 to 1.3, 1.7 and 1.8). Functions take a part of the text and
// hand back a part of it, a length or a number.
#![tactic(auto)]

ghost use Rattle.std.specs.Fn.{FnReturnsAt};
ghost use Rattle.std.specs.Prelude.{◌≡◌, not, Bool, List, ℕ, ◌≤◌, ◌<◌, ◌+◌, ◌*◌, length, take, drop, pos, ◌*ℤ◌};
ghost use Rattle.grammar.specs.IndexParts;
ghost use Rattle.grammar.specs.IndexNumbers;
ghost use Rattle.idx_numbers_model.specs.Parts;
ghost use Rattle.idx_numbers_model.specs.Parts.{front, shorn, trimmed, all};
ghost use Rattle.idx_numbers_model.specs.Numbers as DigitNumbers;
ghost use Rattle.idx_numbers_model.specs.Numbers.{bare, hex, position_of};
ghost use Rattle.clock_model.specs.Sums.{checked};
ghost use Rattle.idx_numbers_model.specs.Times.{micros_of};
ghost use Rattle.idx_numbers_model.specs.Answers.{test, fitting, Bound, run_of, lowest};

use clock::plus;
use idx_numbers_model::{Digits, Kind};

// By ranges, so that a blank takes one branch: the pattern `9..=13 | 32` takes two, and on blanks of both kinds twice the time.
// Ruled out: a byte 08 or 0E taken for a blank.
pub fn is_blank(b: u8) -> bool
    ensures { result ≡ IndexParts.blank b }
{
    match b {
        0..9 => false,
        9..=13 => true,
        _ => b == b' ',
    }
}

// How many leading bytes pass.
// Ruled out: bytes that pass after one that does not; the first other byte counted.
pub fn leading_where<F: Fn(&u8) -> bool>(s: &[u8], passes: F) -> usize
    requires { F.IsAlwaysCallable passes }
    ensures { (p : ℕ → Bool) → ((b : ℕ) (r : Bool) → FnReturnsAt F.Fn passes b r → r ≡ p b) → result ≡ length (front p s.now) }
{
    s.iter().position(|b| !passes(b)).unwrap_or(s.len())
}

// Whether a byte of a palette line stands between tokens.
fn is_parting(b: &u8) -> bool
    ensures { result ≡ IndexParts.parting b.now }
{
    is_blank(*b) || *b == b','
}

// How many leading bytes are of that kind.
// Ruled out: bytes of the kind after one that is not; the other kind counted.
pub fn leading(s: &[u8], k: Kind) -> usize
    ensures { result ≡ length (front (test k) s.now) }
{
    match k {
        Kind::Parting => leading_where(s, is_parting),
        Kind::Token => leading_where(s, |b| !is_parting(b)),
    }
}

// How many leading bytes are blanks.
// Ruled out: a count of all blanks of the part.
pub fn blanks(s: &[u8]) -> usize
    ensures { result ≡ length (front IndexParts.blank s.now) }
{
    leading_where(s, |b| is_blank(*b))
}

// How many bytes are left without the trailing blanks.
// Ruled out: the number of trailing blanks; blanks within the part cut.
pub fn kept(s: &[u8]) -> usize
    ensures { result ≡ length (shorn IndexParts.blank s.now) }
{
    match s.iter().rposition(|b| !is_blank(*b)) {
        Some(last) => last + 1,
        None => 0,
    }
}

// The part without the blanks at its ends.
// Ruled out: one blank at each end; a blank within the part cut.
pub fn trim<'a>(s: &'a [u8]) -> &'a [u8]
    ensures { result.now ≡ trimmed s.now }
{
    let a = blanks(s);
    let m = &s[a..];
    let n = kept(m);
    &m[..n]
}

// Whether one of the eight bytes from i on is sep. With no way out of the loop they are tested at once.
fn eight_have(s: &[u8], i: usize, sep: u8) -> bool
    requires { i + 8 ≤ length s.now }
    ensures { result ≡ not (all (IndexParts.unlike sep) (take 8 (drop i s.now))) }
{
    let mut hit = false;
    for b in &s[i..i + 8] {
        if *b == sep {
            hit = true;
        }
    }
    hit
}

// How many bytes stand before the first sep, byte by byte.
fn near(s: &[u8], sep: u8) -> usize
    ensures { result ≡ length (front (IndexParts.unlike sep) s.now) }
{
    leading_where(s, |b| *b != sep)
}

// How many bytes stand before the first sep. Blocks of eight are passed over, each tested at once: the edit nine_at_once holds the step.
// Ruled out: the last separator; a part without one taken for empty.
pub fn until(s: &[u8], sep: u8) -> usize
    ensures { result ≡ length (front (IndexParts.unlike sep) s.now) }
{
    let n = s.len();
    let mut i = 0;
    while n - i >= 8 {
        if eight_have(s, i, sep) {
            return i + near(&s[i..], sep);
        }
        i += 8;
    }
    i + near(&s[i..], sep)
}

// The eight bytes from place i on as one number: a word of eight letters is one test.
// Ruled out: the last byte first; seven bytes.
pub fn eight_at(s: &[u8], i: usize) -> u64
    requires { i + 8 ≤ length s.now }
    ensures { result ≡ lowest (take 8 (drop i s.now)) }
{
    u64::from_le_bytes([
        s[i],
        s[i + 1],
        s[i + 2],
        s[i + 3],
        s[i + 4],
        s[i + 5],
        s[i + 6],
        s[i + 7],
    ])
}

// Whether s starts with w.
// Ruled out: a part shorter than the word; the word further on.
pub fn starts(s: &[u8], w: &[u8]) -> bool
    ensures { result ≡ Parts.starts w.now s.now }
{
    // the first byte tells most texts apart, where all of them take longer
    if let [wanted, ..] = w
        && let [first, ..] = s
        && first != wanted
    {
        return false;
    }
    s.starts_with(w)
}

fn digit(b: u8) -> u64
    ensures { result ≡ IndexNumbers.digit b }
{
    match b {
        48..=57 => b as u64 - 48,
        65..=70 => b as u64 - 55,
        97..=102 => b as u64 - 87,
        _ => 16,
    }
}

// Whether acc leaves room for a further digit d: no division for each digit.
fn fits(acc: u64, d: u64, most: u64, last: u64) -> bool
    ensures { result ≡ fitting acc d most last }
{
    if acc < most {
        return true;
    }
    if acc > most {
        return false;
    }
    d <= last
}

// The digits of a base at the front of s, and their number, if that is within the bound. A bound is given by its quotient and
// its remainder by the base.
// Ruled out: the bound itself refused; digits after another byte.
pub fn digits<const BASE: u64>(s: &[u8], most: u64, last: u64) -> Option<Digits>
    requires { Bound BASE most last }
    ensures { result ≡ run_of BASE (most * BASE + last) s.now }
{
    let mut acc: u64 = 0;
    for (i, b) in s.iter().enumerate() {
        let d = digit(*b);
        if d >= BASE {
            return Some(Digits {
                count: i,
                value: acc,
            });
        }
        if !fits(acc, d, most, last) {
            return None;
        }
        acc = acc * BASE + d;
    }
    Some(Digits {
        count: s.len(),
        value: acc,
    })
}

// The number of digits that are all of n bytes, one at least.
fn whole(r: Option<Digits>, n: usize) -> Option<u64>
    ensures { (base top : ℕ) (s : List ℕ) → 0 < base → r ≡ run_of base top s → n ≡ length s → result ≡ DigitNumbers.digits base top s }
{
    let found = r?;
    if found.count == 0 || found.count < n {
        return None;
    }
    Some(found.value)
}

// A `+` or nothing, then digits of the base.
// Ruled out: a sign alone; a `-`.
pub fn unsigned<const BASE: u64>(s: &[u8], most: u64, last: u64) -> Option<u64>
    requires { Bound BASE most last }
    ensures { result ≡ DigitNumbers.unsigned BASE (most * BASE + last) s.now }
{
    if s.len() == 0 {
        return None;
    }
    if s[0] == b'+' {
        let t = &s[1..];
        return whole(digits::<BASE>(t, most, last), t.len());
    }
    whole(digits::<BASE>(s, most, last), s.len())
}

// Without every leading `0x`. No index is counted: each turn has what the one before left.
fn strip_0x<'a>(s: &'a [u8]) -> &'a [u8]
    ensures { result.now ≡ bare s.now }
{
    let mut rest = s;
    while let Some(shorter) = rest.strip_prefix(b"0x") {
        rest = shorter;
    }
    rest
}

// Hexadecimal, after every leading `0x`, at most 16 * most + 15.
// Ruled out: a `+` before `0x`; no digit after `0x`.
pub fn parse_hex(s: &[u8], most: u64) -> Option<u64>
    requires { Bound 16 most 15 }
    ensures { result ≡ hex (most * 16 + 15) s.now }
{
    let h = strip_0x(s);
    unsigned::<16>(h, most, 15)
}

// Hexadecimal; only if that fails, decimal. Both bounds are the largest number of 64 bits.
// Ruled out: decimal read where hexadecimal digits stand; `0x` taken away before decimal digits.
pub fn parse_position(s: &[u8]) -> Option<u64>
    ensures { result ≡ position_of s.now }
{
    match parse_hex(s, 1152921504606846975) {
        Some(v) => Some(v),
        None => unsigned::<10>(s, 1844674407370955161, 5),
    }
}

// A product, where it stays in signed 64 bits.
fn times(a: i64, b: i64) -> Option<i64>
    ensures { result ≡ checked (a *ℤ b) }
{
    a.checked_mul(b)
}

// (((h·60)+m)·60+s)·1,000,000 + ms·1,000, refused where a step leaves signed 64 bits.
// Ruled out: a step that leaves and comes back; milliseconds taken for microseconds.
pub fn time_of(h: i64, m: i64, s: i64, ms: i64) -> Option<i64>
    ensures { result ≡ micros_of h m s ms }
{
    let minutes = plus(times(h, 60)?, m)?;
    let seconds = plus(times(minutes, 60)?, s)?;
    let micros = times(seconds, 1000000)?;
    plus(micros, times(ms, 1000)?)
}
