// Colour bands: the lines and columns of a picture that have colours of their own (docs/FORMAT.md, section 4).
// They are read from the bytes after a colour change's size word and stored as words, 3 + 3n for a band of n entries.
#![tactic(auto)]

ghost use Rattle.std.specs.Prelude.{◌≡◌, ◌≤◌, ◌<◌, ◌-◌, ◌+◌, ◌*◌, ◌^◌, length, drop, set};
ghost use Rattle.bands_model.specs.Claim.{Says};
ghost use Rattle.bands_model.specs.Bands.{header, head_of, entry_of, bands_of, entries_of};
ghost use Rattle.outcome.specs.Outcome.{listed, IsOk, answered};
ghost use Rattle.bands_model.specs.Answers.{count_of, Stored, rest_of, Goes, Ahead, ListRead};

use bands_model::{EntryWords, Header, Stop};
use outcome::{Refusal, put, word};

// What two words say where a header may stand.
fn header_of(a: u16, b: u16) -> Header
    ensures { result ≡ header a b }
{
    if a as u32 * 65536 + b as u32 == 0x0FFF_FFFF {
        return Header::End;
    }
    if 4096 <= a {
        return Header::Bad;
    }
    let last = b % 4096;
    if a <= last {
        return Header::Band(a, last, b / 4096);
    }
    Header::Bad
}

// What stands at the front of p.
fn read_head(p: &[u8]) -> Header
    ensures { result ≡ head_of p.now }
{
    match p {
        [] => Header::End,
        [a, b, c, d, ..] => header_of(word(*a, *b), word(*c, *d)),
        _ => Header::Bad,
    }
}

// An entry at the front of p that starts at column lo or right of it.
fn read_entry(p: &[u8], lo: u32) -> Option<EntryWords>
    ensures { result ≡ entry_of p.now lo }
{
    let [a, b, c, d, e, f, ..] = p else {
        return None;
    };
    let column = word(*a, *b);
    if (column as u32) < lo {
        return None;
    }
    Some(EntryWords {
        column,
        selectors: word(*c, *d),
        alphas: word(*e, *f),
    })
}

// The readers below call each other at most so often before they hand back, which bounds the stack they take.
const DEEPEST: usize = 4;

// Three words from `at` on.
fn put3(out: &mut [u16], at: usize, a: u16, b: u16, c: u16)
    requires { at + 2 < 2 ^ 64 }
    ensures { out.new ≡ set (set (set out.old at a) (at + 1) b) (at + 2) c }
{
    put(out, at, a);
    put(out, at + 1, b);
    put(out, at + 2, c);
}

// Reads the bands from a header on, `deep` calls deep, and stores their words from `at` on where there is room. That place and part stay below
// 2^64 together is asked of each reader, as both change with every call.
#[cycle(bands_from_entries_from)]
fn bands_from(p: &[u8], deep: usize, out: &mut [u16], at: usize) -> Stop
    requires { at + length p.now < 2 ^ 64 }
    ensures { Goes p.now deep (bands_of p.now) at out.old result out.new }
{
    if deep == 0 {
        return Stop::More {
            rest: p.len(),
            left: 0,
            lo: 0,
            at,
        };
    }
    match read_head(p) {
        Header::End => Stop::End(at),
        Header::Bad => Stop::Bad,
        Header::Band(first, last, left) => {
            put3(out, at, first, last, left);
            if left == 0 {
                return bands_from(&p[4..], deep - 1, out, at + 3);
            }
            entries_from(&p[4..], left, 0, deep - 1, out, at + 3)
        }
    }
}

// The same from an entry on, with `left` entries of a band to go, of which the next starts at column lo or right of it.
#[cycle(bands_from_entries_from)]
fn entries_from(p: &[u8], left: u16, lo: u32, deep: usize, out: &mut [u16], at: usize) -> Stop
    requires { (1 ≤ left) × (at + length p.now < 2 ^ 64) }
    ensures { Goes p.now deep (entries_of p.now left lo) at out.old result out.new }
{
    if deep == 0 {
        return Stop::More {
            rest: p.len(),
            left,
            lo,
            at,
        };
    }
    match read_entry(p, lo) {
        None => Stop::Bad,
        Some(entry) => {
            put3(out, at, entry.column, entry.selectors, entry.alphas);
            if left == 1 {
                return bands_from(&p[6..], deep - 1, out, at + 3);
            }
            entries_from(
                &p[6..],
                left - 1,
                entry.column as u32 + 1,
                deep - 1,
                out,
                at + 3,
            )
        }
    }
}

// How far bands without entries go: the bytes taken, and the place after the last word.
#[derive(Clone, Copy)]
struct Run {
    taken: usize,
    at: usize,
}

// Reads bands from a header on, up to the first that has entries or to what is no band, and stores their words from `from` on where there is
// room. No reader hands on to the other there, so it is a loop: while what stands next is such a header, which takes 4 bytes, and the number of
// bytes taken is handed back.
fn bare_bands(p: &[u8], out: &mut [u16], from: usize) -> Run
    requires { from + length p.now < 2 ^ 64 }
    ensures { Ahead p.now (bands_of p.now) (bands_of (drop result.taken p.now)) from out.old result.taken result.at out.new }
{
    let mut i: usize = 0;
    let mut at = from;
    while let Header::Band(first, last, 0) = read_head(&p[i..]) {
        put3(out, at, first, last, 0);
        i += 4;
        at += 3;
    }
    Run { taken: i, at }
}

// How far entries go: the bytes taken, the place after the last word, the entries to go and the least column of the next.
#[derive(Clone, Copy)]
struct EntryRun {
    taken: usize,
    at: usize,
    left: u16,
    lo: u32,
}

// The same of a band's entries, up to the last or to what is no entry.
fn inner_entries(p: &[u8], count: u16, least: u32, out: &mut [u16], from: usize) -> EntryRun
    requires { (1 ≤ count) × (from + length p.now < 2 ^ 64) }
    ensures { (1 ≤ result.left) × Ahead p.now (entries_of p.now count least) (entries_of (drop result.taken p.now) result.left result.lo) from out.old result.taken result.at out.new }
{
    let mut i: usize = 0;
    let mut at = from;
    let mut left = count;
    let mut lo = least;
    // while what stands next is an entry of the band, which takes 6 bytes, and the number of bytes taken is handed back
    while 1 < left {
        let Some(entry) = read_entry(&p[i..], lo) else {
            break;
        };
        put3(out, at, entry.column, entry.selectors, entry.alphas);
        i += 6;
        at += 3;
        left -= 1;
        lo = entry.column as u32 + 1;
    }
    EntryRun {
        taken: i,
        at,
        left,
        lo,
    }
}

// Goes on where the readers stopped.
fn go_on(p: &[u8], left: u16, lo: u32, out: &mut [u16], at: usize) -> Stop
    requires { at + length p.now < 2 ^ 64 }
    ensures { Goes p.now 4 (rest_of p.now left lo) at out.old result out.new }
{
    if left == 0 {
        let run = bare_bands(p, out, at);
        let i = run.taken;
        return bands_from(&p[i..], DEEPEST, out, run.at);
    }
    let run = inner_entries(p, left, lo, out, at);
    let i = run.taken;
    entries_from(&p[i..], run.left, run.lo, DEEPEST, out, run.at)
}

// The number of words of the band list, stored from `from` on where there is room.
fn read_list(payload: &[u8], out: &mut [u16], from: usize) -> Result<usize, Refusal>
    requires { from + length payload.now < 2 ^ 64 }
    ensures { ListRead payload.now from out.old (answered result) out.new }
{
    let mut rest = payload.len();
    let mut left: u16 = 0;
    let mut lo: u32 = 0;
    let mut at = from;
    // It goes on by what was read: no index is counted.
    loop {
        match go_on(&payload[payload.len() - rest..], left, lo, out, at) {
            Stop::End(to) => {
                return Ok(to - from);
            }
            Stop::Bad => {
                return Err(Refusal::NoBandList);
            }
            Stop::More {
                rest: bytes,
                left: entries,
                lo: column,
                at: place,
            } => {
                rest = bytes;
                left = entries;
                lo = column;
                at = place;
            }
        }
    }
}

// How many words the bands in a payload take.
// Ruled out: one to three bytes left taken for the end; a band counted whose entries do not rise.
pub fn count_words(payload: &[u8]) -> Result<usize, Refusal>
    ensures { answered result ≡ count_of 0 (bands_of payload.now) }
{
    let mut none = [0u16; 1];
    read_list(payload, &mut none, 0)
}

// The most bands that a unit or a payload may have, and the most words that these take: 15 entries each.
pub const MOST_BANDS: usize = 32;

pub const MOST_WORDS: usize = 1536;

// The bands in a payload, at most 32 of them: their words in the front of the array, and 0 after them. On a refusal the
// array is as found.
// Ruled out: the array written before the list is known to be whole and short enough; words counted in place of bands.
pub fn parse_chg_colcon_payload(payload: &[u8], bands: &mut [u16; 1536]) -> Result<usize, Refusal>
    ensures { Stored payload.now bands.old (answered result) bands.new × Says payload.now bands.old bands.new (answered result) }
{
    let mut words = [0u16; 1536];
    // words without room are counted, and not stored
    let n = read_list(payload, &mut words[..], 0)?;
    if MOST_WORDS < n {
        return Err(Refusal::ManyBands);
    }
    if MOST_BANDS < look::count_bands(&words[..n]) {
        return Err(Refusal::ManyBands);
    }
    *bands = words;
    Ok(n)
}

// The bands in a payload, which were counted before and for which there is room, stored from place `at` of the words
// on.
// Ruled out: words before `at` or behind the last one changed; words counted that are not stored.
pub fn store_words(payload: &[u8], words: &mut [u16], at: usize) -> Result<usize, Refusal>
    requires { (IsOk (bands_of payload.now)) × (at + length (listed (bands_of payload.now)) ≤ length words.old) }
    ensures { ListRead payload.now at words.old (answered result) words.new }
{
    read_list(payload, words, at)
}
