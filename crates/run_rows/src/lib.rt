// What the programs of rows share: a row and its line, how a unit's numbers are written, and writing on where a write fails.
#![tactic(auto)]

ghost use Rattle.std.specs.Prelude.{◌≡◌, ◌<◌, ◌≤◌, ◌≢◌, ℕ, length, get_or, IsOk};
ghost use Rattle.run_rows.specs.Line.{TakesLine};
ghost use Rattle.table.specs.Table.{given_at, part_at, Stored};

use std::fmt::{self, Display, Write};
use std::io::{self, Read};

// A row: its line, and the bytes that the fourth part of the line writes.
#[derive(Clone, Copy)]
pub struct Row<'a> {
    pub line: &'a [u8],
    pub bytes: &'a [u8],
}

impl<'a> Row<'a> {
    // Number k of the row, as `table::given` has it.
    // Ruled out: a number among the row's bytes.
    pub fn given(&self, k: usize) -> usize
        ensures { result ≡ given_at self.now.line.now k }
    {
        table::given(self.line, k)
    }

    // The bytes that part k of the row writes, stored as `table::stored` stores them.
    // Ruled out: a part of the row's bytes.
    pub fn stored(&self, k: usize, out: &mut [u8]) -> usize
        ensures { Stored (part_at 124 k self.now.line.now) out.old result out.new }
    {
        table::stored(self.line, k, out)
    }
}

// Reads a line into the front of `text` up to its line end, as far as there is room, and returns how many bytes stand before that. A read
// that fails is the end of input.
// Ruled out: a line end in a line; a byte passed over.
pub fn next_line<R: Read>(input: &mut R, text: &mut [u8]) -> usize
    ensures within { result ≤ length text.new }
    ensures plain { (k : ℕ) → k < result → get_or text.new k 0 ≢ 10 }
    ensures taken { TakesLine (R.remaining input.old) (R.remaining input.new) text.new result }
{
    for n in 0..text.len() {
        if input.read(&mut text[n..=n]).unwrap_or(0) == 0 || text[n] == b'\n' {
            return n;
        }
    }
    text.len()
}

// What is formatted, in pieces: a number, and each other letter by itself.
#[derive(Drop)]
struct Pieces<'a, P> {
    rt: &'a P,
    digits: [u8; 20],
    count: usize,
}

impl<P: Print> Pieces<'_, P> {
    // Writes the digits that are held.
    fn flush(&mut self) {
        if let Some(number) = self.digits.get(..self.count) {
            let _ = self.rt.write_all(number);
        }
        self.count = 0;
    }

    fn push(&mut self, letter: u8) {
        if letter.is_ascii_digit()
            && let Some(place) = self.digits.get_mut(self.count)
        {
            *place = letter;
            self.count += 1;
        } else {
            self.flush();
            let _ = self.rt.write_all(&[letter]);
        }
    }
}

impl<P: Print> Write for Pieces<'_, P> {
    fn write_str(&mut self, s: &str) -> fmt::Result {
        for letter in s.as_bytes() {
            self.push(*letter);
        }
        Ok(())
    }
}

// Prints through another, piece by piece, and goes on where a write fails: what that leaves unwritten stays so.
#[derive(Clone, Copy)]
pub struct Onward<'a, P>(pub &'a P);

impl<'a, P: Print> Print for Onward<'a, P> {
    fn print<D: Display + Drop>(&self, value: D) -> io::Result<()>
        ensures { IsOk result }
    {
        let mut pieces = Pieces {
            rt: self.0,
            digits: [0; 20],
            count: 0,
        };
        let _ = pieces.write(value);
        pieces.flush();
        Ok(())
    }

    fn println<D: Display + Drop>(&self, value: D) -> io::Result<()>
        ensures { IsOk result }
    {
        self.print(value)?;
        self.write_all(b"\n")
    }

    fn write_all(&self, bytes: &[u8]) -> io::Result<()>
        ensures { IsOk result }
    {
        let _ = self.0.write_all(bytes);
        Ok(())
    }

    fn write_some(&self, bytes: &[u8]) -> io::Result<usize> {
        self.0.write_some(bytes)
    }
}

// A digit in hexadecimal.
fn digit(n: u8) -> u8 {
    let d = n % 16;
    if d < 10 { b'0' + d } else { b'A' - 10 + d }
}

// Writes the two digits of a byte in hexadecimal, each by itself.
// Ruled out: a digit left out because the one before it was not written.
pub fn write_byte(rt: &impl Print, b: u8) -> io::Result<()>
    ensures { IsOk result }
{
    let rt = &Onward(rt);
    rt.write_all(&[digit(b / 16)])?;
    rt.write_all(&[digit(b)])
}

// The four of a word.
// Ruled out: a byte left out because the one before it was not written.
pub fn write_word(rt: &impl Print, w: u16) -> io::Result<()>
    ensures { IsOk result }
{
    let rt = &Onward(rt);
    write_byte(rt, (w / 256) as u8)?;
    write_byte(rt, (w % 256) as u8)
}

// Writes a blank and a number, with the blank and the sign of a negative one as one piece.
// Ruled out: a number left out because its sign was not written.
pub fn write_signed(rt: &impl Print, z: i64) -> io::Result<()>
    ensures { IsOk result }
{
    let rt = &Onward(rt);
    if z < 0 {
        rt.write_all(b" -")?;
        let size = z.unsigned_abs();
        print!(rt; "{size}")
    } else {
        print!(rt; " {z}")
    }
}

// Writes a unit's numbers, which stand in the order of include/vobsub.h, piece by piece.
// Ruled out: a piece left out because one before it was not written.
pub fn write_unit(rt: &impl Print, numbers: &[usize; 17]) -> io::Result<()>
    ensures { IsOk result }
{
    let rt = Onward(rt);
    let [
        x1,
        y1,
        x2,
        y2,
        selectors,
        alphas,
        started,
        start,
        stopped,
        stop,
        forced,
        top,
        bottom,
        change,
        words,
        codes,
        clipped,
    ] = *numbers;
    print!(rt; ": area {x1} {y1} {x2} {y2}, selectors ")?;
    write_word(&rt, (selectors % 65536) as u16)?;
    print!(rt; ", alphas ")?;
    write_word(&rt, (alphas % 65536) as u16)?;
    print!(rt; ", start {started} {start}, stop {stopped} {stop}, forced {forced}")?;
    print!(rt;
        ", offsets {top} {bottom}, change {change}, band words {words}, codes {codes}, clipped {clipped}"
    )
}
