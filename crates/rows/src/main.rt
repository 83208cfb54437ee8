// Runs rows through the functions of `vobsub_c`, and writes a line for each: the function, the row's name, its answer, and
// the memory lent for it, with `.` for what is as found (`Lent`); for a refused decode_cue its times and numbers too.
// A line of standard input is a row: the function, its name, its numbers, its bytes, and for decode_cue the bytes of
// the file, with a bar between them. The numbers are those of the call in its order, and how much memory is lent:
// parse_and_decode_spu: map. extract_spu: position, stream; scratch. parse_idx: starts, positions. pick_cue: cue.
// decode_cue: cue, stream; scratch, map, canvas. decode_rle_field: width, height, start row; map.
// parse_chg_colcon_payload: none. Of an array of bands all words are written: as many as are used in hexadecimal, and
// the others in runs.
#![tactic(auto)]

use run_rows::{Onward, Row, write_byte, write_signed, write_unit};
use std::fmt::Display;
use std::io;

// What is lent, and what it holds before a call. No grey of an index of no bytes is as found.
trait Lent: Copy + PartialEq + Display + Drop {
    const FOUND: Self;
}

impl Lent for u8 {
    const FOUND: u8 = 237;
}

impl Lent for u16 {
    const FOUND: u16 = 0xEEEE;
}

// A place is as found only where all four of its bytes are.
impl Lent for u32 {
    const FOUND: u32 = 0xEDEDEDED;
}

impl Lent for u64 {
    const FOUND: u64 = 77;
}

impl Lent for i64 {
    const FOUND: i64 = -77;
}

// Whether nothing is refused; a refusal is written.
fn is_answered(rt: &impl Print, refusal: u8) -> io::Result<bool> {
    if refusal != 0 {
        print!(rt; ": refused {refusal}")?;
    }
    Ok(refusal == 0)
}

fn write_lent<T: Lent>(rt: &impl Print, value: T) -> io::Result<()> {
    if value == T::FOUND {
        rt.write_all(b" .")
    } else {
        print!(rt; " {value}")
    }
}

fn write_times(rt: &impl Print, times: &[i64]) -> io::Result<()> {
    for time in times {
        if *time == i64::FOUND {
            rt.write_all(b" .")?;
        } else {
            write_signed(rt, *time)?;
        }
    }
    Ok(())
}

// The values in runs of equal ones, `NxV`.
fn write_runs<T: Lent>(rt: &impl Print, values: &[T]) -> io::Result<()> {
    for run in values.chunk_by(|a, b| a == b) {
        let count = run.len();
        match run.first() {
            Some(value) if *value != T::FOUND => print!(rt; " {count}x{value}")?,
            _ => print!(rt; " {count}x.")?,
        }
    }
    Ok(())
}

// The values in hexadecimal.
fn write_hex<T: Lent + Into<u64>>(rt: &impl Print, values: &[T], digits: usize) -> io::Result<()> {
    for value in values {
        if *value == T::FOUND {
            rt.write_all(b" .")?;
        } else {
            let n: u64 = (*value).into();
            rt.write_all(b" ")?;
            if digits == 4 {
                write_byte(rt, (n / 256 % 256) as u8)?;
            }
            write_byte(rt, (n % 256) as u8)?;
        }
    }
    Ok(())
}

// An array of bands of which `used` words are used.
fn write_bands(rt: &impl Print, words: &[u16; 1536], used: usize) -> io::Result<()> {
    rt.write_all(b"; bands")?;
    let Some((front, rest)) = words.split_at_checked(used) else {
        return Ok(());
    };
    write_hex(rt, front, 4)?;
    write_runs(rt, rest)
}

fn unit(rt: &impl Print, row: &Row<'_>) -> io::Result<()> {
    let mut room = [u8::FOUND; 256];
    let Some(map) = room.get_mut(..row.given(0)) else {
        return Ok(());
    };
    let mut numbers = [0; 17];
    let mut words = [u16::FOUND; 1536];
    let refusal = vobsub_c::vobsub_parse_and_decode_spu(row.bytes, map, &mut words, &mut numbers);
    if is_answered(rt, refusal)? {
        write_unit(rt, &numbers)?;
    }
    rt.write_all(b"; map")?;
    write_runs(rt, map)?;
    write_bands(rt, &words, numbers[14])
}

// The bytes of a part of s.
fn write_part(rt: &impl Print, s: &[u8], from: usize, length: usize) -> io::Result<()> {
    let Some(rest) = s.get(from..) else {
        return Ok(());
    };
    for b in &rest[..length.min(rest.len())] {
        rt.write_all(b" ")?;
        write_byte(rt, *b)?;
    }
    Ok(())
}

fn packets(rt: &impl Print, row: &Row<'_>) -> io::Result<()> {
    let mut room = [u8::FOUND; 8];
    let Some(scratch) = room.get_mut(..row.given(2)) else {
        return Ok(());
    };
    let position = row.given(0);
    let mut length = 0;
    let mut joined = 0;
    let refusal = vobsub_c::vobsub_extract_spu(
        row.bytes,
        position,
        row.given(1),
        scratch,
        &mut length,
        &mut joined,
    );
    if is_answered(rt, refusal)? {
        if joined == 0 {
            print!(rt; ": bare {length},")?;
            write_part(rt, row.bytes, position, length)?;
        } else {
            print!(rt; ": joined {length},")?;
            write_part(rt, scratch, 0, length)?;
        }
    }
    rt.write_all(b"; scratch")?;
    write_hex(rt, scratch, 2)
}

// Whether there is a palette, and its colours, but for a black one that no line gives.
fn write_palette(rt: &impl Print, any: u64, palette: &[u8; 48]) -> io::Result<()> {
    print!(rt; ", palette {any}")?;
    if any == 0 && palette.iter().all(|part| *part == 0) {
        return Ok(());
    }
    for colour in palette.chunks_exact(3) {
        rt.write_all(b" ")?;
        for part in colour {
            write_byte(rt, *part)?;
        }
    }
    Ok(())
}

fn index(rt: &impl Print, row: &Row<'_>) -> io::Result<()> {
    let mut starts_room = [i64::FOUND; 8];
    let Some(starts) = starts_room.get_mut(..row.given(0)) else {
        return Ok(());
    };
    let mut positions_room = [u32::FOUND; 8];
    let Some(positions) = positions_room.get_mut(..row.given(1)) else {
        return Ok(());
    };
    let mut palette = [u8::FOUND; 48];
    let mut numbers = [77; 4];
    let refusal = vobsub_c::vobsub_parse_idx(
        row.bytes,
        starts,
        positions,
        &mut palette,
        &mut numbers,
    );
    if is_answered(rt, refusal)? {
        let [width, height, any, cues] = numbers;
        print!(rt; ": size {width} {height}")?;
        write_palette(rt, any as u64, &palette)?;
        print!(rt; ", cues {cues}")?;
    }
    rt.write_all(b"; starts")?;
    write_times(rt, starts)?;
    rt.write_all(b"; positions")?;
    for position in positions {
        write_lent(rt, *position)?;
    }
    Ok(())
}

fn write_duration(rt: &impl Print, set: u64, duration: u64) -> io::Result<()> {
    if set == 0 {
        rt.write_all(b" -")
    } else {
        print!(rt; " {duration}")
    }
}

fn cue(rt: &impl Print, row: &Row<'_>) -> io::Result<()> {
    let n = row.given(0);
    let mut start = i64::FOUND;
    let mut palette = [u8::FOUND; 48];
    let mut numbers = [u64::FOUND; 4];
    print!(rt; ", cue {n}")?;
    let refusal = vobsub_c::vobsub_pick_cue(row.bytes, n, &mut start, &mut palette, &mut numbers);
    if is_answered(rt, refusal)? {
        let [position, set, duration, any] = numbers;
        rt.write_all(b": start")?;
        write_signed(rt, start)?;
        print!(rt; ", position {position}, duration")?;
        write_duration(rt, set, duration)?;
        write_palette(rt, any, &palette)?;
    }
    Ok(())
}

fn write_cue(
    rt: &impl Print,
    refusal: u8,
    times: &[i64; 3],
    numbers: &[u64; 13],
) -> io::Result<()> {
    if !is_answered(rt, refusal)? {
        rt.write_all(b", times")?;
        write_times(rt, &times[..])?;
        rt.write_all(b", numbers")?;
        return write_runs(rt, &numbers[..]);
    }
    let [start, show, hide] = *times;
    let [
        set,
        duration,
        start_delay,
        stop_delay,
        x,
        y,
        width,
        height,
        codes,
        clipped,
        started,
        stopped,
        hides,
    ] = *numbers;
    rt.write_all(b":")?;
    write_signed(rt, start)?;
    write_duration(rt, set, duration)?;
    print!(rt; ", at {x} {y}, size {width} {height}, delays {start_delay} {stop_delay}")?;
    print!(rt; ", codes {codes}, clipped {clipped}, started {started}, stopped {stopped}")?;
    print!(rt; ", hides {hides}, show")?;
    write_signed(rt, show)?;
    rt.write_all(b", hide")?;
    write_signed(rt, hide)
}

fn paint(rt: &impl Print, row: &Row<'_>) -> io::Result<()> {
    let mut file_room = [0; 8192];
    let n = row.stored(4, &mut file_room);
    let Some(file) = file_room.get(..n) else {
        return Ok(());
    };
    let mut scratch_room = [u8::FOUND; 8192];
    let Some(scratch) = scratch_room.get_mut(..row.given(2)) else {
        return Ok(());
    };
    let mut map_room = [u8::FOUND; 300];
    let Some(map) = map_room.get_mut(..row.given(3)) else {
        return Ok(());
    };
    let mut canvas_room = [u8::FOUND; 1200];
    let Some(canvas) = canvas_room.get_mut(..row.given(4)) else {
        return Ok(());
    };
    let mut times = [i64::FOUND; 3];
    let mut numbers = [u64::FOUND; 13];
    let refusal = vobsub_c::vobsub_decode_cue(
        row.bytes,
        file,
        row.given(0),
        row.given(1),
        scratch,
        map,
        canvas,
        &mut times,
        &mut numbers,
    );
    write_cue(rt, refusal, &times, &numbers)?;
    rt.write_all(b"; scratch")?;
    write_runs(rt, scratch)?;
    rt.write_all(b"; map")?;
    write_runs(rt, map)?;
    rt.write_all(b"; canvas")?;
    write_runs(rt, canvas)
}

fn field(rt: &impl Print, row: &Row<'_>) -> io::Result<()> {
    let mut room = [u8::FOUND; 60000];
    let Some(map) = room.get_mut(..row.given(3)) else {
        return Ok(());
    };
    let mut codes = 77;
    let mut clipped = 77;
    let refusal = vobsub_c::vobsub_decode_rle_field(
        row.bytes,
        row.given(0),
        row.given(1),
        row.given(2),
        map,
        &mut codes,
        &mut clipped,
    );
    if is_answered(rt, refusal)? {
        rt.write_all(b":")?;
    } else {
        rt.write_all(b",")?;
    }
    rt.write_all(b" codes")?;
    write_lent(rt, codes as u64)?;
    rt.write_all(b", clipped")?;
    write_lent(rt, clipped as u64)?;
    rt.write_all(b",")?;
    write_runs(rt, map)
}

fn bands(rt: &impl Print, row: &Row<'_>) -> io::Result<()> {
    let mut words = [u16::FOUND; 1536];
    let mut count = 0;
    let refusal = vobsub_c::vobsub_parse_chg_colcon_payload(row.bytes, &mut words, &mut count);
    if is_answered(rt, refusal)? {
        print!(rt; ": words {count}")?;
    }
    write_bands(rt, &words, count)
}

fn answer(rt: &impl Print, row: &Row<'_>) -> io::Result<()> {
    match table::part(row.line, b'|', 0) {
        b"parse_and_decode_spu" => unit(rt, row),
        b"extract_spu" => packets(rt, row),
        b"parse_idx" => index(rt, row),
        b"pick_cue" => cue(rt, row),
        b"decode_cue" => paint(rt, row),
        b"decode_rle_field" => field(rt, row),
        b"parse_chg_colcon_payload" => bands(rt, row),
        _ => Ok(()),
    }
}

// A line without a bar names no function.
fn write_row(rt: &impl Print, line: &[u8]) -> io::Result<()> {
    let mut room = [0; 8192];
    let n = table::stored(line, 3, &mut room);
    rt.write_all(table::part(line, b'|', 0))?;
    rt.write_all(b"|")?;
    rt.write_all(table::part(line, b'|', 1))?;
    if let Some(bytes) = room.get(..n)
        && line.contains(&b'|')
    {
        answer(rt, &Row { line, bytes })?;
    }
    rt.write_all(b"\n")
}

// The rows up to an empty line or the end of input.
fn main(rt: HostRuntime) {
    let out = Onward(&rt);
    let mut input = rt.reader();
    let mut text = [0; 65536];
    // every loop of a proved function ends
    for _ in 0..usize::MAX {
        let n = run_rows::next_line(&mut input, &mut text);
        if n == 0 {
            return;
        }
        let _ = write_row(&out, &text[..n]);
    }
}
