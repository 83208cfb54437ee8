// Tables of rows as text, for the programs that run rows: the parts of a text between marks, and the number or the bytes that a part
// writes. A byte is written as itself, or as a backslash and two hexadecimal digits.
#![tactic(auto)]

ghost use Rattle.std.specs.Prelude.{◌≡◌, ◌+◌, ◌*◌, ◌<◌, length};
ghost use Rattle.table.specs.Table.{part_at, number_of, given_at, hex_digit, Written, Stored};

use idx_numbers::{unsigned, until};
use outcome::{lesser, put};

// A byte that a text writes, and the place after what writes it.
#[derive(Clone, Copy, Debug, PartialEq, Eq)]
struct Item {
    byte: u8,
    next: usize,
}

// Part k of a text, from 0 on, with the mark between parts; behind the last part there is nothing.
// Ruled out: a mark that belongs to a part; a part that is not there taken for the last.
pub fn part(s: &[u8], mark: u8, k: usize) -> &[u8]
    ensures { result.now ≡ part_at mark k s.now }
{
    let mut from = 0;
    for _ in 0..k {
        let n = until(&s[from..], mark);
        from = lesser(from + n + 1, s.len());
    }
    let m = &s[from..];
    let n = until(m, mark);
    &m[..n]
}

// The number that decimal digits make, 0 where they make none of 64 bits.
// Ruled out: a number of more than 64 bits cut; digits up to the first other byte.
pub fn number(s: &[u8]) -> usize
    ensures { result ≡ number_of s.now }
{
    unsigned::<10>(s, 1844674407370955161, 5).unwrap_or(0) as usize
}

// A sum and no `match`, since the definition has an answer for each byte, a digit or none.
fn hex_digit(c: u8) -> u8
    ensures { result ≡ hex_digit c }
{
    (c % 16 + c / 64 * 9) % 16
}

fn hex_of(a: u8, b: u8) -> u8
    ensures { result ≡ hex_digit a * 16 + hex_digit b }
{
    hex_digit(a) * 16 + hex_digit(b)
}

// The byte that s writes at place i: a backslash with two digits behind it, or the byte that stands there.
fn written(s: &[u8], i: usize) -> Item
    requires { i < length s.now }
    ensures { Written s.now i result }
{
    match &s[i..] {
        [b'\\', a, b, ..] => Item {
            byte: hex_of(*a, *b),
            next: i + 3,
        },
        _ => Item {
            byte: s[i],
            next: i + 1,
        },
    }
}

// The bytes that s writes, stored from the front of `out` on as far as there is room; answers their number. Each turn goes on behind
// what it read.
// Ruled out: a backslash stored with its digits; bytes stored past the room.
pub fn bytes(s: &[u8], out: &mut [u8]) -> usize
    ensures { Stored s.now out.old result out.new }
{
    let mut i = 0;
    let mut n = 0;
    while i < s.len() {
        let item = written(s, i);
        put(out, n, item.byte);
        n += 1;
        i = item.next;
    }
    n
}

// Number k of a row, whose parts have bars between them: numbers are its third part, with blanks between them.
// Ruled out: a number of another part; the next number for one that is not there.
pub fn given(line: &[u8], k: usize) -> usize
    ensures { result ≡ given_at line.now k }
{
    number(part(part(line, b'|', 2), b' ', k))
}

// The bytes that part k of a row writes, stored as `bytes` stores them.
// Ruled out: bytes of another part.
pub fn stored(line: &[u8], k: usize, out: &mut [u8]) -> usize
    ensures { Stored (part_at 124 k line.now) out.old result out.new }
{
    bytes(part(line, b'|', k), out)
}
