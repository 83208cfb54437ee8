// Lists the title in the folder that it is run in (docs/FORMAT.md, section 8). Then, where it has arguments, it lists further titles: of each
// two arguments the first is the path of an index and the second that of its file, and a line with the index's path stands before its lines.
// What is written comes from `listing`; no contract can say what is read or written.
#![tactic(auto)]

ghost use Rattle.std.specs.Prelude.{◌≡◌, ◌≤◌, length, take, IfSome};

use std::env::FillError;
use std::io::Read;
use std::rt::{Env, Files};
use std::{fs, str};

// How many bytes one read gives, if it does not fail.
fn read_some(file: &mut impl Read, buffer: &mut [u8]) -> Option<usize>
    ensures within { IfSome result (λ n. n ≤ length buffer.new) }
    ensures front { IfSome result (λ n. n ≡ length (take n buffer.new)) }
{
    file.read(buffer).ok()
}

// Reads on until the buffer is full or the file ends; each turn goes on behind what was read. A read that fails, the first or a later one, is
// no end of the file.
fn read_all(file: &mut impl Read, buffer: &mut [u8]) -> Option<usize>
    ensures within { IfSome result (λ n. n ≤ length buffer.new) }
    ensures front { IfSome result (λ n. n ≡ length (take n buffer.new)) }
{
    let mut size = 0;
    while size < buffer.len() {
        let more = read_some(file, &mut buffer[size..])?;
        if more == 0 {
            return Some(size);
        }
        size += more;
    }
    Some(size)
}

// How many bytes of a file are in the front of the buffer, if it was opened and no read of it failed. A buffer is one byte longer than
// the longest file that is listed, so that a full one tells a file that is too long. A path that is no UTF-8 names no file.
fn read_file(rt: &impl Files, path: &[u8], buffer: &mut [u8]) -> Option<usize>
    ensures within { IfSome result (λ n. n ≤ length buffer.new) }
    ensures front { IfSome result (λ n. n ≡ length (take n buffer.new)) }
{
    let name = str::from_utf8(path).ok()?;
    let mut file = fs::open(rt, name).ok()?;
    read_all(&mut file, buffer)
}

// Writes s. What a write that fails leaves unwritten stays so.
fn say(rt: &impl Print, s: &[u8]) {
    let _ = rt.write_all(s);
}

// A line for each cue. A unit has at most 65,535 bytes, and a line at most 210.
fn write_cues(rt: &impl Print, file: &[u8], starts: &[i64], positions: &[u32], cues: usize) {
    let mut scratch = [0u8; 65536];
    let mut line = [0u8; 256];
    for n in 0..cues {
        let size = listing::cue_line(file, starts, positions, cues, n, &mut scratch, &mut line);
        say(rt, &line[..size]);
    }
}

// The title whose index and file have these paths. A text of 65,536 bytes has at most 65,537 lines, and so no more
// cues; one of no bytes has one.
fn list_title(rt: &(impl Files + Print), index: &[u8], file: &[u8]) {
    let mut text = [0u8; 65537];
    let mut bytes = [0u8; 65537];
    let a = read_file(rt, index, &mut text);
    let b = read_file(rt, file, &mut bytes);
    let there = a.is_some() && b.is_some();
    let n = a.unwrap_or(0);
    let m = b.unwrap_or(0);
    let mut starts = [0i64; 65537];
    let mut positions = [0u32; 65537];
    let mut line = [0u8; 256];
    let head = listing::title_line(
        there,
        &text[..n],
        &bytes[..m],
        &mut starts,
        &mut positions,
        &mut line,
    );
    say(rt, &line[..head.size]);
    write_cues(rt, &bytes[..m], &starts, &positions, head.cues);
}

// How many bytes of the buffer argument i takes: 0 where it is longer than the buffer, and `None` where there is no such argument.
fn argument(rt: &impl Env, i: usize, buffer: &mut [u8]) -> Option<usize>
    ensures { IfSome result (λ n. n ≤ length buffer.new) }
{
    match rt.arg(i, buffer) {
        Ok(n) => Some(n),
        Err(FillError::TooLong) => Some(0),
        Err(FillError::NotPresent) => None,
    }
}

// The title whose paths are arguments i and j, if there is an argument i.
fn list_row(rt: &(impl Env + Files + Print), i: usize, j: usize) -> Option<()> {
    let mut index = [0u8; 4096];
    let n = argument(rt, i, &mut index)?;
    let mut file = [0u8; 4096];
    let m = argument(rt, j, &mut file).unwrap_or(0);
    say(rt, &index[..n]);
    say(rt, b"\n");
    list_title(rt, &index[..n], &file[..m]);
    Some(())
}

// At most 1,000 arguments.
fn list_arguments(rt: &(impl Env + Files + Print)) {
    for k in (1..=1000).step_by(2) {
        if list_row(rt, k, k + 1).is_none() {
            return;
        }
    }
}

fn main(rt: HostRuntime) {
    list_title(&rt, b"title.idx", b"title.sub");
    list_arguments(&rt);
}
