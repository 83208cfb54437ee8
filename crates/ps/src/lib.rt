// The unit at a cue's position, bare or joined from the packets of a program stream (docs/FORMAT.md, section 2).
#![tactic(auto)]

ghost use Rattle.std.specs.Prelude.{◌≡◌, ℕ, cond, List, [], ◌≤◌, ◌<◌, ◌+◌, ◌-◌, ltb, length, take, drop};
ghost use Rattle.std.specs.Prelude.{Some as some, None as none};
ghost use Rattle.std.proofs.lemmas.List.Edits.{sets};
ghost use Rattle.std.proofs.Math.Seq.{slice};
ghost use Rattle.ps_model.specs.Claim.{Says, Undisturbed};
ghost use Rattle.outcome.specs.Outcome.{ok, answered, need};
ghost use Rattle.grammar.specs.Bytes.{byte, word};
ghost use Rattle.grammar.specs.Packets.{Packet, packets, unit_of, is_id};
ghost use Rattle.ps_model.specs.Packets.{packets_at, is_bare};
ghost use Rattle.ps_model.specs.Unit.{joined_at};
ghost use Rattle.ps_model.specs.Answers.{joined_given, unit_given, unit_stored, unit_part, Extracted};

use outcome::{Refusal, lesser, word_of};
use packets::read_packet;
use ps_model::{PacketAt, UnitAt};

// The greatest stream.
pub const TOP_STREAM: usize = 31;

// The id of stream 0.
const FIRST_ID: u8 = 0x20;

// Byte j of what is joined once the bytes of the file from a up to e are: `old` where it was there before.
fn joined_byte(file: &[u8], a: usize, e: usize, have: usize, j: usize, old: u8) -> u8
    requires { (a ≤ e) × (e ≤ length file.now) }
    ensures { result ≡ cond (ltb j have) old (byte (slice a e file.now) (j - have)) }
{
    if j < have {
        return old;
    }
    file[a..e].get(j - have).copied().unwrap_or(0)
}

// How many bytes the packets give a unit: those with that id.
fn measure_packets(file: &[u8], from: usize, id: u8) -> Result<usize, Refusal>
    ensures { answered result ≡ joined_given (packets_at (is_id id) file.now from []) }
{
    let mut at = from;
    let mut have: usize = 0;
    let mut first: u8 = 0;
    let mut second: u8 = 0;
    // It goes on by what was read: no index is counted. `join_packets` stores where this measures: the two share the walk
    // alone, and a closure for the step would have contracts as long as both.
    loop {
        match read_packet(file, at, id)? {
            PacketAt::Passes(end) => {
                at = end;
            }
            PacketAt::Keeps(a, end) => {
                first = joined_byte(file, a, end, have, 0, first);
                second = joined_byte(file, a, end, have, 1, second);
                have = have + (end - a);
                if 2 <= have {
                    let t = word_of(first, second);
                    if t <= have {
                        return Ok(t);
                    }
                }
                at = end;
            }
        }
    }
}

// The m bytes of the file from a on, into scratch from `to` on. By place: `copy_from_slice` has the archive ask for `memmove` from outside.
fn copy(file: &[u8], a: usize, m: usize, scratch: &mut [u8], to: usize)
    requires { (a + m ≤ length file.now) × (to + m ≤ length scratch.old) }
    ensures { scratch.new ≡ sets scratch.old to (take m (drop a file.now)) }
{
    for i in 0..m {
        scratch[to + i] = file[a + i];
    }
}

// The unit of t bytes that the packets give, into the front of scratch.
fn join_packets(file: &[u8], from: usize, id: u8, t: usize, scratch: &mut [u8])
    requires { (ps : List Packet) × (packets_at (is_id id) file.now from [] ≡ ok ps) × (t ≡ length (unit_of (packets ps))) × (t ≤ length scratch.old) }
    ensures { (ps : List Packet) → packets_at (is_id id) file.now from [] ≡ ok ps → scratch.new ≡ sets scratch.old 0 (unit_of (packets ps)) }
{
    let mut at = from;
    let mut have: usize = 0;
    // It goes on by what was read: no index is counted.
    while have < t {
        let Ok(packet) = read_packet(file, at, id) else {
            return;
        };
        match packet {
            PacketAt::Passes(end) => {
                at = end;
            }
            PacketAt::Keeps(a, end) => {
                let m = lesser(end - a, t - have);
                copy(file, a, m, scratch, have);
                have = have + m;
                at = end;
            }
        }
    }
}

// The unit that packets with that id give, in the front of scratch, which is as found on a refusal. Apart, so that a bare unit and what is refused
// before do not wait for the registers of its walk.
#[inline(never)]
fn extract_spu_from_ps(
    file: &[u8],
    from: usize,
    id: u8,
    scratch: &mut [u8],
) -> Result<UnitAt, Refusal>
    ensures { (answered result ≡ unit_given (joined_at (is_id id) file.now from (length scratch.old))) × (scratch.new ≡ sets scratch.old 0 (unit_stored (joined_at (is_id id) file.now from (length scratch.old)))) }
{
    let t = measure_packets(file, from, id)?;
    if scratch.len() < t {
        return Err(Refusal::ShortScratch);
    }
    join_packets(file, from, id, t, scratch);
    Ok(UnitAt::Joined(t))
}

// The length of a bare unit, where one stands.
fn bare_size(file: &[u8], at: usize) -> Option<usize>
    requires { at ≤ length file.now }
    ensures { result ≡ cond (is_bare file.now at) (some (word file.now at)) none }
{
    if file.len() - at < 4 {
        return None;
    }
    let size = word_of(file[at], file[at + 1]);
    if size < 4 {
        return None;
    }
    if file.len() - at < size {
        return None;
    }
    Some(size)
}

// The unit of a stream at a position: in the file, or in the front of scratch, which is as found otherwise.
// Ruled out: scratch written before the last packet is known to be whole; a unit that packets give read from the file's
// own bytes; bytes of another stream in a unit.
pub fn extract_spu(
    file: &[u8],
    position: usize,
    stream: usize,
    scratch: &mut [u8],
) -> Result<UnitAt, Refusal>
    ensures { Extracted file.now position stream scratch.old (answered result) scratch.new × Says file.now position stream scratch.old scratch.new (answered result)
        × Undisturbed file.now position stream scratch.old (answered result) scratch.new }
{
    if TOP_STREAM < stream {
        return Err(Refusal::BadStream);
    }
    if file.len() <= position {
        return Err(Refusal::PastFile);
    }
    if let Some(size) = bare_size(file, position) {
        return Ok(UnitAt::Bare(size));
    }
    let id = FIRST_ID + stream as u8;
    extract_spu_from_ps(file, position, id, scratch)
}

// The n bytes from a on, or as many of them as there are.
fn part<'a>(s: &'a [u8], a: usize, n: usize) -> &'a [u8]
    ensures { result.now ≡ take n (drop a s.now) }
{
    let start = a.min(s.len());
    let end = start + n.min(s.len() - start);
    &s[start..end]
}

// The bytes of the unit that `extract_spu` found, from whichever of file and scratch holds them; none where there is no unit, whatever the
// refusal was.
// Ruled out: a part of scratch for a bare unit; a trap on an answer that these slices did not give.
pub fn unit_part<'a>(
    file: &'a [u8],
    scratch: &'a [u8],
    position: usize,
    unit: Option<UnitAt>,
) -> &'a [u8]
    ensures { (k : ℕ) → result.now ≡ unit_part file.now scratch.now position (need k unit) }
{
    match unit {
        Some(UnitAt::Bare(n)) => part(file, position, n),
        Some(UnitAt::Joined(n)) => part(scratch, 0, n),
        None => &file[0..0],
    }
}
