// Replays the fixed list of the oracle's answers (standard input; oracle/src/bin/list.rs makes it and says how it is laid out) through the
// functions of `vobsub_c`, and writes a line for each class: how many rows there are, and how many are answered otherwise. A read that fails is
// the end of input. The pieces of a line are written one by one, and what a write that fails leaves unwritten stays so.
#![tactic(auto)]

use outcome::word_of;
use std::io::Read;

// What lent memory holds before a call.
const BYTE: u8 = 0xA5;

const WORD: u16 = 0xA5C3;

const NUMBER: usize = 0xA5C35A3C0FF09669;

const START: i64 = 0x5AC35A3C0FF09669;

const PLACE: u32 = 0x0FF09669;

// What a call answers: the refusal, and the sum over all that it gives and all that was lent to it.
#[derive(Clone, Copy, PartialEq, Eq)]
struct Answer {
    refusal: u8,
    sum: u64,
}

fn mixed(sum: u64, v: u64) -> u64 {
    let s = sum % 4294967291;
    (s * 31 + v % 1000003) % 4294967291
}

// What a sum takes in. There is an impl for each type, as no trait of std makes a u64 of a usize.
trait Summand {
    fn mixed_into(self, sum: u64) -> u64;
}

impl Summand for u8 {
    fn mixed_into(self, sum: u64) -> u64 {
        mixed(sum, self as u64)
    }
}

impl Summand for u16 {
    fn mixed_into(self, sum: u64) -> u64 {
        mixed(sum, self as u64)
    }
}

impl Summand for u32 {
    fn mixed_into(self, sum: u64) -> u64 {
        mixed(sum, self as u64)
    }
}

impl Summand for u64 {
    fn mixed_into(self, sum: u64) -> u64 {
        mixed(sum, self)
    }
}

impl Summand for usize {
    fn mixed_into(self, sum: u64) -> u64 {
        mixed(sum, self as u64)
    }
}

// The sign, and how far it is from 0 or from -1.
impl Summand for i64 {
    fn mixed_into(self, sum: u64) -> u64 {
        if self < 0 {
            let far = -1 - self;
            return mixed(mixed(sum, 1), far as u64);
        }
        mixed(mixed(sum, 0), self as u64)
    }
}

// A sum as it grows.
#[derive(Clone, Copy)]
struct Sum(u64);

impl Sum {
    fn with<T: Summand>(self, v: T) -> Sum {
        Sum(v.mixed_into(self.0))
    }

    fn with_all<T: Summand + Copy>(self, s: &[T]) -> Sum {
        let mut sum = self;
        for v in s {
            sum = sum.with(*v);
        }
        sum
    }

    // What a call answers whose refusal this is.
    fn beside(self, refusal: u8) -> Answer {
        Answer {
            refusal,
            sum: self.0,
        }
    }
}

const EMPTY: Sum = Sum(1);

fn pes(bytes: &[u8]) -> Answer {
    let mut body = NUMBER;
    let refusal = vobsub_c::vobsub_parse_pes_body(bytes, &mut body);
    EMPTY.with(body).beside(refusal)
}

fn packets(bytes: &[u8], position: usize, stream: usize, room: usize) -> Option<Answer> {
    let mut memory = [BYTE; 8192];
    let scratch = memory.get_mut(..room)?;
    let mut length = NUMBER;
    let mut joined = BYTE;
    let refusal = vobsub_c::vobsub_extract_spu(
        bytes,
        position,
        stream,
        scratch,
        &mut length,
        &mut joined,
    );
    let sum = EMPTY.with(length).with(joined).with_all(scratch);
    Some(sum.beside(refusal))
}

fn bands(bytes: &[u8]) -> Answer {
    let mut words = [WORD; 1536];
    let mut count = NUMBER;
    let refusal = vobsub_c::vobsub_parse_chg_colcon_payload(bytes, &mut words, &mut count);
    EMPTY.with(count).with_all(&words[..]).beside(refusal)
}

fn field(bytes: &[u8], width: usize, height: usize, start: usize, room: usize) -> Option<Answer> {
    let mut memory = [BYTE; 8192];
    let map = memory.get_mut(..room)?;
    let mut codes = NUMBER;
    let mut clipped = NUMBER;
    let refusal = vobsub_c::vobsub_decode_rle_field(
        bytes,
        width,
        height,
        start,
        map,
        &mut codes,
        &mut clipped,
    );
    let sum = EMPTY.with(codes).with(clipped).with_all(map);
    Some(sum.beside(refusal))
}

fn unit(bytes: &[u8], room: usize) -> Option<Answer> {
    let mut memory = [BYTE; 8192];
    let map = memory.get_mut(..room)?;
    let mut words = [WORD; 1536];
    let mut numbers = [NUMBER; 17];
    let refusal = vobsub_c::vobsub_parse_and_decode_spu(bytes, map, &mut words, &mut numbers);
    let sum = EMPTY
        .with_all(&numbers[..])
        .with_all(map)
        .with_all(&words[..]);
    Some(sum.beside(refusal))
}

fn written(bytes: &[u8], width: usize, height: usize, room: usize) -> Option<Answer> {
    let mut memory = [BYTE; 8192];
    let out = memory.get_mut(..room)?;
    let mut length = NUMBER;
    let refusal = vobsub_c::vobsub_build_demo_spu(width, height, bytes, out, &mut length);
    Some(EMPTY.with(length).with_all(out).beside(refusal))
}

fn index(bytes: &[u8], room: usize, more: usize) -> Option<Answer> {
    let mut start_memory = [START; 64];
    let starts = start_memory.get_mut(..room)?;
    let mut position_memory = [PLACE; 64];
    let positions = position_memory.get_mut(..more)?;
    let mut palette = [BYTE; 48];
    let mut numbers = [NUMBER; 4];
    let refusal = vobsub_c::vobsub_parse_idx(bytes, starts, positions, &mut palette, &mut numbers);
    let sum = EMPTY
        .with_all(&numbers[..])
        .with_all(&palette[..])
        .with_all(starts)
        .with_all(positions);
    Some(sum.beside(refusal))
}

fn cue(bytes: &[u8], n: usize) -> Answer {
    let mut start = START;
    let mut palette = [BYTE; 48];
    let mut numbers = [NUMBER as u64; 4];
    let refusal = vobsub_c::vobsub_pick_cue(bytes, n, &mut start, &mut palette, &mut numbers);
    let sum = EMPTY
        .with(start)
        .with_all(&numbers[..])
        .with_all(&palette[..]);
    sum.beside(refusal)
}

// The text's length in four bytes, the cue and the stream in two each, then text and file.
fn canvas(bytes: &[u8], a: usize, b: usize, c: usize) -> Option<Answer> {
    let (head, rest) = bytes.split_first_chunk::<8>()?;
    let [l0, l1, l2, l3, n0, n1, s0, s1] = *head;
    let length = u32::from_be_bytes([l0, l1, l2, l3]) as usize;
    let (text, file) = rest.split_at_checked(length)?;
    let mut scratch_memory = [BYTE; 8192];
    let scratch = scratch_memory.get_mut(..a)?;
    let mut map_memory = [BYTE; 1024];
    let map = map_memory.get_mut(..b)?;
    let mut canvas_memory = [BYTE; 4096];
    let canvas = canvas_memory.get_mut(..c)?;
    let mut times = [START; 3];
    let mut numbers = [NUMBER as u64; 13];
    let refusal = vobsub_c::vobsub_decode_cue(
        text,
        file,
        word_of(n0, n1),
        word_of(s0, s1),
        scratch,
        map,
        canvas,
        &mut times,
        &mut numbers,
    );
    let sum = EMPTY
        .with_all(&times[..])
        .with_all(&numbers[..])
        .with_all(scratch)
        .with_all(map)
        .with_all(canvas);
    Some(sum.beside(refusal))
}

// What the row of a class, a byte of the list, with these bytes and four numbers is answered with.
fn answer_of(class: u8, bytes: &[u8], numbers: [usize; 4]) -> Option<Answer> {
    let [a, b, c, d] = numbers;
    match class {
        1 => Some(pes(bytes)),
        2 => packets(bytes, a, b, c),
        3 => Some(bands(bytes)),
        4 => field(bytes, a, b, c, d),
        5 => unit(bytes, a),
        6 => written(bytes, a, b, c),
        7 => index(bytes, a, b),
        8 => Some(cue(bytes, a)),
        9 => canvas(bytes, a, b, c),
        _ => None,
    }
}

// Whether the input has bytes for all of s. A read that fails is the end of input, also where a signal interrupts it, after which `read_exact`
// would try again.
fn read_all(input: &mut impl Read, s: &mut [u8]) -> bool {
    let mut done = 0;
    // each turn goes on behind what was read
    while done < s.len() {
        let n = input.read(&mut s[done..]).unwrap_or(0);
        if n == 0 {
            return false;
        }
        done += n;
    }
    true
}

// Whether the next row of the list is there and is answered as it expects.
fn next_row(input: &mut impl Read) -> bool {
    let mut head = [0; 16];
    if !read_all(input, &mut head) {
        return false;
    }
    let [
        class,
        refusal,
        l0,
        l1,
        a0,
        a1,
        b0,
        b1,
        c0,
        c1,
        d0,
        d1,
        s0,
        s1,
        s2,
        s3,
    ] = head;
    let mut room = [0; 4096];
    let Some(bytes) = room.get_mut(..word_of(l0, l1)) else {
        return false;
    };
    if !read_all(input, bytes) {
        return false;
    }
    let numbers = [
        word_of(a0, a1),
        word_of(b0, b1),
        word_of(c0, c1),
        word_of(d0, d1),
    ];
    let sum = u32::from_be_bytes([s0, s1, s2, s3]) as u64;
    answer_of(class, bytes, numbers) == Some(Answer { refusal, sum })
}

// As many rows as the next two bytes of the list say.
fn replay_class(rt: &impl Print, input: &mut impl Read, name: &str) {
    let mut head = [0; 2];
    let what = if read_all(input, &mut head) {
        ": replayed "
    } else {
        ": no list, "
    };
    let count = word_of(head[0], head[1]);
    let differ = (0..count).filter(|_| !next_row(input)).count();
    let _ = rt.print(name);
    let _ = rt.print(what);
    let _ = rt.print(count);
    let _ = rt.print(", ");
    let _ = rt.print(differ);
    let _ = rt.print(" differ\n");
}

fn main(rt: HostRuntime) {
    let mut input = rt.reader();
    // how the list was made, in words
    let mut words = [0; 128];
    if read_all(&mut input, &mut words) {
        let _ = rt.write_all(&words[..]);
    }
    for name in [
        "pes", "packets", "bands", "control", "fields", "units", "written", "idx", "cue", "canvas",
    ] {
        replay_class(&rt, &mut input, name);
    }
}
