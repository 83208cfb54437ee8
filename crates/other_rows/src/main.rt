// Runs rows of functions that are not exported, and rows whose files or pictures code builds, and writes a line for
// each: the function, the row's name, and its answer.
// A line of standard input is a row: the function, its name, its numbers and its bytes, with a bar between them. The
// numbers:
// read_code: a place, the pixels left. read_through, align_through: a place. chg_colcon_lookup: column, line; the bands
// are those of the bytes, or the words that stand behind another bar. count_bands: none; the words stand there too.
// measure_spu: none. extract_spu: position, stream, scratch; the bytes are the head of a file of 65,555 bytes, each
// i % 251, and those behind another bar stand at 32,774. build_demo_spu: width, height, output, and for a picture that
// code builds its size, n, p and k: bytes 1 and 2 in turn, n at a time, but from 126,976 on p of them in pairs; or,
// where k is not 0, each of the first k pictures, whose bytes are the digits of its number to base 4. converted: ticks.
// times_of: the start, as 0 and the number, or as 1 and how far it is above -2^63; then 1 or 0 and a delay for the start
// command, and the same for the stop command.
#![tactic(auto)]

use clock_model::{Micros, Ticks};
use control_model::Spu;
use nibbles::NibbleReader;
use outcome::{Refusal, lesser};
use ps_model::UnitAt;
use run_rows::{Onward, Row, write_byte, write_signed, write_unit, write_word};
use std::io;

const FOUND: u8 = 238;

// A picture to be written: its size and its indices.
#[derive(Clone, Copy)]
struct Picture<'a> {
    width: usize,
    height: usize,
    indices: &'a [u8],
}

fn write_refused(rt: &impl Print, refusal: Refusal) -> io::Result<()> {
    let number = refusal.number();
    print!(rt; ": refused {number}")
}

fn code(rt: &impl Print, row: &Row<'_>) -> io::Result<()> {
    let mut reader = NibbleReader {
        buf: row.bytes,
        pos: row.given(0),
    };
    match codes::read_code(&mut reader, row.given(1)) {
        Ok(code) => {
            let clipped = u8::from(code.clipped);
            let next = reader.pos;
            print!(rt;
                ": nibbles {} value {} clipped {clipped} next {next}",
                code.size, code.value
            )
        }
        Err(refusal) => write_refused(rt, refusal),
    }
}

fn nibble(rt: &impl Print, row: &Row<'_>) -> io::Result<()> {
    match nibbles::read_through(row.bytes, row.given(0)) {
        Ok(n) => print!(rt; ": nibble {n}"),
        Err(refusal) => write_refused(rt, refusal),
    }
}

fn measured(rt: &impl Print, row: &Row<'_>) -> io::Result<()> {
    match spu::measure_spu(row.bytes) {
        Ok(s) => write_unit(rt, &vobsub_numbers::numbers_of(s)),
        Err(refusal) => write_refused(rt, refusal),
    }
}

// The start that a row gives.
fn start_of(above_least: usize, n: usize) -> Option<i64> {
    let z = i64::try_from(n).ok()?;
    if above_least == 0 {
        return Some(z);
    }
    clock::plus(i64::MIN, z)
}

fn ticks(n: usize) -> Ticks {
    Ticks((n % 65536) as u16)
}

// The delay of a command, if it stands.
fn delay_of(stands: usize, delay: usize) -> Option<Ticks> {
    (stands == 1).then_some(ticks(delay))
}

fn times(rt: &impl Print, row: &Row<'_>) -> io::Result<()> {
    let Some(start) = start_of(row.given(0), row.given(1)) else {
        return Ok(());
    };
    let starts = delay_of(row.given(2), row.given(3));
    let stops = delay_of(row.given(4), row.given(5));
    match clock::times_of(Micros(start), starts, stops) {
        Ok(t) => {
            let show = vobsub_numbers::time_in(t.show);
            let hides = u8::from(t.hide.is_some());
            let hide = vobsub_numbers::time_in(t.hide);
            rt.write_all(b": show")?;
            write_signed(rt, show)?;
            print!(rt; ", hides {hides}, hide")?;
            write_signed(rt, hide)
        }
        Err(refusal) => write_refused(rt, refusal),
    }
}

// The words that numbers with blanks between them write, and how many there are.
fn written(s: &[u8], words: &mut [u16]) -> usize {
    for n in 0..words.len() {
        let part = table::part(s, b' ', n);
        if part.is_empty() {
            return n;
        }
        words[n] = (table::number(part) % 65536) as u16;
    }
    words.len()
}

// How many bands the words hold.
fn count(rt: &impl Print, row: &Row<'_>) -> io::Result<()> {
    let mut words = [0; 1536];
    let n = written(table::part(row.line, b'|', 4), &mut words);
    let Some(front) = words.get(..n) else {
        return Ok(());
    };
    let bands = look::count_bands(front);
    print!(rt; ": bands {bands}")
}

// What the bands give at a column of a line.
fn look(rt: &impl Print, row: &Row<'_>) -> io::Result<()> {
    let x = (row.given(0) % 65536) as u16;
    let y = (row.given(1) % 65536) as u16;
    let mut words = [0; 1536];
    let mut n = written(table::part(row.line, b'|', 4), &mut words);
    if n == 0 {
        match chg_colcon::parse_chg_colcon_payload(row.bytes, &mut words) {
            Ok(count) => n = count,
            Err(refusal) => return write_refused(rt, refusal),
        }
    }
    let Some(front) = words.get(..n) else {
        return Ok(());
    };
    match look::chg_colcon_lookup(front, x, y) {
        Some(four) => {
            print!(rt; ": selectors ")?;
            write_word(rt, four.selectors)?;
            print!(rt; " alphas ")?;
            write_word(rt, four.alphas)
        }
        None => rt.write_all(b": nothing"),
    }
}

// Byte i of what code builds.
fn built(i: usize, n: usize, pairs: usize) -> u8 {
    if n == 0 {
        return (i % 251) as u8;
    }
    if 126976 <= i && i - 126976 < pairs {
        return (i / 2 % 2) as u8 + 1;
    }
    (i / n % 2) as u8 + 1
}

// Bytes 0 to 250 in turn, a turn at a time: with a remainder for each byte a row of packets without scratch took twice as long.
fn fill_turns(s: &mut [u8]) {
    let turn: [u8; 251] = std::array::from_fn(|i| (i % 251) as u8);
    for chunk in s.chunks_mut(251) {
        if let Some(front) = turn.get(..chunk.len()) {
            chunk.copy_from_slice(front);
        }
    }
}

fn fill(s: &mut [u8], n: usize, pairs: usize) {
    if n == 0 {
        fill_turns(s);
        return;
    }
    for (i, b) in s.iter_mut().enumerate() {
        *b = built(i, n, pairs);
    }
}

fn mixed(sum: usize, b: u8) -> usize {
    let t = sum % 1000000007;
    (t * 31 + b as usize) % 1000000007
}

fn total(s: &[u8]) -> usize {
    s.iter().fold(0, |sum, b| mixed(sum, *b))
}

fn summed(rt: &impl Print, row: &Row<'_>, file: &[u8], scratch: &mut [u8]) -> io::Result<()> {
    let position = row.given(0);
    let answer = ps::extract_spu(file, position, row.given(1), scratch);
    match answer {
        Ok(UnitAt::Bare(n)) => print!(rt; ": bare {n},")?,
        Ok(UnitAt::Joined(n)) => print!(rt; ": joined {n},")?,
        Err(refusal) => write_refused(rt, refusal)?,
    }
    let sum = total(ps::unit_part(file, &scratch[..], position, answer.ok()));
    let scratch_sum = total(scratch);
    print!(rt; " sum {sum}; scratch sum {scratch_sum}")
}

// A file whose packets start at its front and at 32,774.
fn place_packets(row: &Row<'_>, file: &mut [u8]) {
    fill(file, 0, 0);
    row.stored(3, file);
    if let Some(second) = file.get_mut(32774..) {
        row.stored(4, second);
    }
}

fn packets(rt: &impl Print, row: &Row<'_>) -> io::Result<()> {
    let mut file = [0; 65555];
    place_packets(row, &mut file);
    let mut room = [FOUND; 65536];
    match room.get_mut(..row.given(2)) {
        Some(scratch) => summed(rt, row, &file, scratch),
        None => Ok(()),
    }
}

// How many bytes are as found.
fn found(s: &[u8]) -> usize {
    s.iter().filter(|b| **b == FOUND).count()
}

// Whether a record is of a picture at 0 0 of that size.
fn is_sized(s: Spu, width: usize, height: usize) -> bool {
    s.x1 == 0 && s.y1 == 0 && s.x2 as usize + 1 == width && s.y2 as usize + 1 == height
}

// The number of codes that a unit is read back with, if it is read back as it was written, without a clipped code.
fn back(unit: &[u8], picture: Picture<'_>, map: &mut [u8]) -> Option<usize> {
    let s = spu::parse_and_decode_spu(unit, map).ok()?.spu;
    let is_same = is_sized(s, picture.width, picture.height) && map.starts_with(picture.indices);
    (is_same && s.clipped == 0).then_some(s.codes)
}

// In its caller, so that a picture that the writer refuses does not wait for the registers of one call more.
#[inline(always)]
fn build(picture: Picture<'_>, out: &mut [u8]) -> Result<usize, Refusal> {
    demo::build_demo_spu(picture.width, picture.height, picture.indices, out)
}

// A picture's answer, with the unit's bytes where `bytes` says so.
fn write_built(
    rt: &impl Print,
    picture: Picture<'_>,
    out: &mut [u8],
    bytes: bool,
) -> io::Result<()> {
    let n = match build(picture, out) {
        Ok(n) => n,
        Err(refusal) => {
            write_refused(rt, refusal)?;
            let left = found(out);
            return print!(rt; "; found {left}");
        }
    };
    let Some((unit, rest)) = out.split_at_checked(n) else {
        return Ok(());
    };
    print!(rt; ": wrote {n}")?;
    if bytes {
        for b in unit {
            rt.write_all(b" ")?;
            write_byte(rt, *b)?;
        }
    }
    let left = found(rest);
    print!(rt; "; found {left}")?;
    let mut map = [FOUND; 131072];
    match back(unit, picture, &mut map) {
        Some(codes) => print!(rt; "; codes {codes}, read back"),
        None => rt.write_all(b"; NOT read back"),
    }
}

fn lent(rt: &impl Print, row: &Row<'_>, picture: Picture<'_>, bytes: bool) -> io::Result<()> {
    let mut room = [FOUND; 65536];
    match room.get_mut(..row.given(2)) {
        Some(out) => write_built(rt, picture, out, bytes),
        None => Ok(()),
    }
}

// Whether a picture is written and read back.
fn is_written(picture: Picture<'_>) -> bool {
    let mut out = [FOUND; 64];
    let mut map = [FOUND; 6];
    let Ok(n) = build(picture, &mut out) else {
        return false;
    };
    match out.get(..n) {
        Some(unit) => back(unit, picture, &mut map).is_some(),
        None => false,
    }
}

// The same of the picture with number k.
fn is_numbered_written(width: usize, height: usize, indices: &mut [u8], k: usize) -> bool {
    let mut rest = k;
    for index in indices.iter_mut() {
        *index = (rest % 4) as u8;
        rest /= 4;
    }
    is_written(Picture {
        width,
        height,
        indices,
    })
}

fn all(
    rt: &impl Print,
    width: usize,
    height: usize,
    indices: &mut [u8],
    count: usize,
) -> io::Result<()> {
    let differ = (0..count)
        .filter(|k| !is_numbered_written(width, height, indices, *k))
        .count();
    let differ = lesser(differ, 1000000000);
    print!(rt; ": {count} pictures, {differ} not read back")
}

fn demo(rt: &impl Print, row: &Row<'_>) -> io::Result<()> {
    let width = row.given(0);
    let height = row.given(1);
    let size = row.given(3);
    if size == 0 {
        let indices = row.bytes;
        let picture = Picture {
            width,
            height,
            indices,
        };
        return lent(rt, row, picture, true);
    }
    let mut room = [0; 131072];
    let Some(indices) = room.get_mut(..size) else {
        return Ok(());
    };
    let count = row.given(6);
    if 0 < count {
        return all(rt, width, height, indices, count);
    }
    fill(indices, row.given(4), row.given(5));
    let picture = Picture {
        width,
        height,
        indices,
    };
    lent(rt, row, picture, false)
}

fn answer(rt: &impl Print, row: &Row<'_>) -> io::Result<()> {
    match table::part(row.line, b'|', 0) {
        b"read_code" => code(rt, row),
        b"read_through" => nibble(rt, row),
        b"align_through" => {
            let count = nibbles::align_through(row.bytes, row.given(0));
            print!(rt; ": count {count}")
        }
        b"converted" => {
            let micros = clock::converted(ticks(row.given(0)));
            rt.write_all(b":")?;
            write_signed(rt, micros.0)
        }
        b"times_of" => times(rt, row),
        b"chg_colcon_lookup" => look(rt, row),
        b"count_bands" => count(rt, row),
        b"measure_spu" => measured(rt, row),
        b"extract_spu" => packets(rt, row),
        b"build_demo_spu" => demo(rt, row),
        _ => Ok(()),
    }
}

// A line without a bar names no function.
fn write_row(rt: &impl Print, line: &[u8]) -> io::Result<()> {
    let mut room = [0; 8192];
    let n = table::stored(line, 3, &mut room);
    rt.write_all(table::part(line, b'|', 0))?;
    rt.write_all(b"|")?;
    rt.write_all(table::part(line, b'|', 1))?;
    if let Some(bytes) = room.get(..n)
        && line.contains(&b'|')
    {
        answer(rt, &Row { line, bytes })?;
    }
    rt.write_all(b"\n")
}

// The rows up to an empty line or the end of input.
fn main(rt: HostRuntime) {
    let out = Onward(&rt);
    let mut input = rt.reader();
    let mut text = [0; 65536];
    // every loop of a proved function ends
    for _ in 0..usize::MAX {
        let n = run_rows::next_line(&mut input, &mut text);
        if n == 0 {
            return;
        }
        let _ = write_row(&out, &text[..n]);
    }
}
