// The packet at a place of a program stream, and the body of a PES packet (docs/FORMAT.md, 2.2 to 2.7).
#![tactic(auto)]

ghost use Rattle.std.specs.Prelude.{◌≡◌, ◌≤◌, ◌<◌, ◌+◌, ◌-◌, length, eqb, leb};
ghost use Rattle.std.specs.Prelude.{None as none};
ghost use Rattle.std.specs.Option.{option_copied};
ghost use Rattle.std.specs.List.{prefix_len};
ghost use Rattle.outcome.specs.Outcome.{ok, answered, check, no_unit};
ghost use Rattle.grammar.specs.Bytes.{word};
ghost use Rattle.grammar.specs.Packets.{buffer_size, stamp_size, is_id};
ghost use Rattle.ps_model.specs.OnePacket.{leading, header1_at, body_at, packet, pack_at, private_at, packet_at};
ghost use Rattle.ps_model.specs.PacketAnswers.{body_given, body_answer, body_part, packet_given, whole_given};

use outcome::{Refusal, word_of};
use ps_model::PacketAt;

// How many bytes FF stand in front.
fn leading_ff(front: &[u8]) -> usize
    ensures { result ≡ prefix_len (λ x. eqb x 0xFF) front.now }
{
    front.iter().take_while(|&&byte| byte == 0xFF).count()
}

// How many bytes of stuffing stand in front, of which no more than 16 are skipped.
fn stuffing(pes: &[u8]) -> usize
    ensures { result ≡ leading 16 pes.now 0 }
{
    leading_ff(&pes[..pes.len().min(16)])
}

// The bytes of a buffer size that starts with b.
fn buffer_size(b: u8) -> usize
    ensures { (result ≡ buffer_size b) × (result ≤ 2) }
{
    match b {
        0x40..=0x7F => 2,
        _ => 0,
    }
}

// The bytes of stamps that start with b.
fn stamp_size(b: u8) -> usize
    ensures { (result ≡ stamp_size b) × (result ≤ 10) }
{
    match b {
        0x20..=0x2F => 5,
        0x30..=0x3F => 10,
        0x0F => 1,
        _ => 0,
    }
}

// The place n bytes after `at`, where the bytes reach it.
fn after(bytes: &[u8], at: usize, n: usize) -> Result<usize, Refusal>
    requires { at ≤ length bytes.now }
    ensures { answered result ≡ check (leb (at + n) (length bytes.now)) no_unit (ok (at + n)) }
{
    if bytes.len() - at < n {
        return Err(Refusal::NoUnit);
    }
    Ok(at + n)
}

// The body behind a header in the older form, with n bytes of stuffing.
fn older_body(pes: &[u8], n: usize) -> Result<usize, Refusal>
    requires { n ≤ 16 }
    ensures { answered result ≡ body_answer (length pes.now) (header1_at pes.now 0 (length pes.now) n) }
{
    let first = pes.get(n).ok_or(Refusal::NoUnit)?;
    let at = n + buffer_size(*first);
    let stamp = pes.get(at).ok_or(Refusal::NoUnit)?;
    after(pes, at, stamp_size(*stamp))
}

// The body of a PES.
fn body_start(pes: &[u8]) -> Result<usize, Refusal>
    ensures { answered result ≡ body_given (body_at pes.now 0 (length pes.now)) }
{
    let first = pes.first().ok_or(Refusal::NoUnit)?;
    if first / 64 == 2 {
        let size = pes.get(2).ok_or(Refusal::NoUnit)?;
        return after(pes, 3, *size as usize);
    }
    older_body(pes, stuffing(pes))
}

// The body of a PES, as the rest of it.
// Ruled out: stuffing looked for in a header of the newer form; a rest that starts past the PES.
pub fn parse_pes_body(pes: &[u8]) -> Option<&[u8]>
    ensures { option_copied result ≡ body_part pes.now (body_at pes.now 0 (length pes.now)) }
{
    let body = body_start(pes).ok()?;
    Some(&pes[body..])
}

// A packet of `size` bytes that keeps nothing.
fn passing(file: &[u8], at: usize, size: usize) -> Result<PacketAt, Refusal>
    requires { at ≤ length file.now }
    ensures { answered result ≡ whole_given (length file.now) (ok (packet file.now at (at + size) none)) }
{
    let end = after(file, at, size)?;
    Ok(PacketAt::Passes(end))
}

// A pack header.
fn pack(file: &[u8], at: usize) -> Result<PacketAt, Refusal>
    requires { at + 6 ≤ length file.now }
    ensures { answered result ≡ whole_given (length file.now) (pack_at file.now at) }
{
    if file[at + 4] / 64 == 1 {
        after(file, at, 14)?;
        return passing(file, at, 14 + (file[at + 13] % 8) as usize);
    }
    if file[at + 4] / 16 == 2 {
        return passing(file, at, 12);
    }
    Err(Refusal::NoUnit)
}

// A private_stream_1 packet of `size` bytes after its length word, which keeps something where its body has that id.
fn private_stream(file: &[u8], at: usize, size: usize, id: u8) -> Result<PacketAt, Refusal>
    requires { (at + 6 ≤ length file.now) × (size ≡ word file.now (at + 4)) }
    ensures { answered result ≡ whole_given (length file.now) (private_at (is_id id) file.now at) }
{
    let start = at + 6;
    let end = after(file, start, size)?;
    let body = parse_pes_body(&file[start..end]).ok_or(Refusal::NoUnit)?;
    match body {
        [first, kept @ ..] if *first == id => Ok(PacketAt::Keeps(end - kept.len(), end)),
        _ => Ok(PacketAt::Passes(end)),
    }
}

// Start codes: of a pack header, of a private_stream_1 packet, and of the program's end.
const PACK: u8 = 0xBA;

const PRIVATE: u8 = 0xBD;

const ENDING: u8 = 0xB9;

// The packet at a place; a body with that id keeps what follows it.
// Ruled out: a packet that ends past the file; a body with another id kept.
pub fn read_packet(file: &[u8], at: usize, id: u8) -> Result<PacketAt, Refusal>
    ensures { answered result ≡ packet_given (packet_at (is_id id) file.now at) }
{
    let packet = file.get(at..).ok_or(Refusal::NoUnit)?;
    let [a, b, c, code, high, low, ..] = packet else {
        return Err(Refusal::NoUnit);
    };
    if [*a, *b, *c] != [0, 0, 1] {
        return Err(Refusal::NoUnit);
    }
    let size = word_of(*high, *low);
    match *code {
        PACK => pack(file, at),
        PRIVATE => private_stream(file, at, size, id),
        ENDING => Err(Refusal::NoUnit),
        _ => passing(file, at, 6 + size),
    }
}
