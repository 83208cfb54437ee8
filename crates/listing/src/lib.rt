// The lines of the list program, each put into a lent line (docs/FORMAT.md, section 8).
#![tactic(auto)]

ghost use Rattle.std.specs.Prelude.{◌≡◌, ◌+◌, ◌≤◌, [], ◌∷◌, ◌++◌, length};
ghost use Rattle.std.proofs.lemmas.List.Edits.{sets};
ghost use Rattle.outcome.specs.Outcome.{answered, number_of};
ghost use Rattle.grammar.specs.Packets.{stream_id};
ghost use Rattle.clock_model.specs.Clock.{unit_in_time};
ghost use Rattle.ps_model.specs.Packets.{form_at};
ghost use Rattle.ps_model.specs.Answers.{unit_stored};
ghost use Rattle.spu_model.specs.Unit.{unit_at};
ghost use Rattle.spu_model.specs.Answers.{spu_answer};
ghost use Rattle.listing_model.specs.Lines.{decimal, signed, lasting, field, newline, times, area, delays, shown_line, refused_line};
ghost use Rattle.listing_model.specs.Title.{list_stream, timed_for, form_for, cue_line};
ghost use Rattle.listing_model.specs.Answers.{Put, Written, record_shown, position_line, table_of, Exactly, Undisturbed, Headed};

use clock_model::Micros;
use control_model::Spu;
use listing_model::Head;
use outcome::{Refusal, lesser};

// The longest file that is read.
const MOST: usize = 65536;

// The stream whose units are listed.
const STREAM: usize = 0;

// A lent line, and how many bytes of it are written.
#[derive(Drop)]
struct Line<'a> {
    bytes: &'a mut [u8; 256],
    len: usize,
    ghost inside: { len ≤ 256 },
}

// Each method writes behind what is there, and the line stays the one that was lent.
impl<'a> Line<'a> {
    fn new(bytes: &'a mut [u8; 256]) -> Line<'a>
        ensures empty { (result.len ≡ 0) × (result.bytes.now ≡ bytes.old) }
        ensures same_line { result.bytes.ghost_name ≡ bytes.entry.ghost_name }
    {
        Line { bytes, len: 0 }
    }

    fn put_byte(&mut self, b: u8)
        requires { self.old.len + 1 ≤ 256 }
        ensures put { Put 1 self.old.bytes.now self.old.len (b ∷ []) self.new.len self.new.bytes.now }
        ensures same_line { self.new.bytes.ghost_name ≡ self.old.bytes.ghost_name }
    {
        self.bytes[self.len] = b;
        self.len += 1;
    }

    fn put_newline(&mut self)
        requires { self.old.len + 1 ≤ 256 }
        ensures put { Put 1 self.old.bytes.now self.old.len newline self.new.len self.new.bytes.now }
        ensures same_line { self.new.bytes.ghost_name ≡ self.old.bytes.ghost_name }
    {
        self.put_byte(b'\n');
    }

    fn put_word(&mut self, word: &[u8])
        requires { self.old.len + length word.now ≤ 256 }
        ensures put { Put (length word.now) self.old.bytes.now self.old.len word.now self.new.len self.new.bytes.now }
        ensures same_line { self.new.bytes.ghost_name ≡ self.old.bytes.ghost_name }
    {
        let end = self.len + word.len();
        let bytes = &mut *self.bytes;
        bytes[self.len..end].copy_from_slice(word);
        self.len = end;
    }

    // The digits of n, the most significant first.
    fn put_decimal(&mut self, n: u64)
        requires { self.old.len + length (decimal n) ≤ 256 }
        ensures put { Put (length (decimal n)) self.old.bytes.now self.old.len (decimal n) self.new.len self.new.bytes.now }
        ensures same_line { self.new.bytes.ghost_name ≡ self.old.bytes.ghost_name }
    {
        if n < 10 {
            return self.put_byte(48 + n as u8);
        }
        self.put_decimal(n / 10);
        self.put_byte(48 + (n % 10) as u8);
    }

    // A number of 64 bits has at most 20 digits. The room is asked of each, as how much a line may take differs from one to the next.
    #[tactic(auto, using(listing_model::proofs::Laws::number_short))]
    fn put_number(&mut self, n: u64)
        requires { self.old.len + 20 ≤ 256 }
        ensures put { Put 20 self.old.bytes.now self.old.len (decimal n) self.new.len self.new.bytes.now }
        ensures same_line { self.new.bytes.ghost_name ≡ self.old.bytes.ghost_name }
    {
        self.put_decimal(n);
    }

    // A number below 0 has a `-` and at most 19 digits.
    // Ruled out: the least number of 64 bits negated in its own type.
    fn put_signed(&mut self, z: i64)
        requires { self.old.len + 20 ≤ 256 }
        ensures put { Put 20 self.old.bytes.now self.old.len (signed z) self.new.len self.new.bytes.now }
        ensures same_line { self.new.bytes.ghost_name ≡ self.old.bytes.ghost_name }
    {
        if z < 0 {
            self.put_byte(b'-');
        }
        self.put_decimal(z.unsigned_abs());
    }

    fn put_lasting(&mut self, duration: Option<u64>)
        requires { self.old.len + 20 ≤ 256 }
        ensures put { Put 20 self.old.bytes.now self.old.len (lasting duration) self.new.len self.new.bytes.now }
        ensures same_line { self.new.bytes.ghost_name ≡ self.old.bytes.ghost_name }
    {
        match duration {
            Some(micros) => self.put_number(micros),
            None => self.put_byte(b'-'),
        }
    }

    fn put_field(&mut self, n: u64)
        requires { self.old.len + 21 ≤ 256 }
        ensures put { Put 21 self.old.bytes.now self.old.len (field (decimal n)) self.new.len self.new.bytes.now }
        ensures same_line { self.new.bytes.ghost_name ≡ self.old.bytes.ghost_name }
    {
        self.put_byte(b' ');
        self.put_number(n);
    }

    // Number, start and duration.
    fn put_times(&mut self, n: u64, start: i64, duration: Option<u64>)
        requires { self.old.len + 62 ≤ 256 }
        ensures put { Put 62 self.old.bytes.now self.old.len (times n start duration) self.new.len self.new.bytes.now }
        ensures same_line { self.new.bytes.ghost_name ≡ self.old.bytes.ghost_name }
    {
        self.put_number(n);
        self.put_byte(b' ');
        self.put_signed(start);
        self.put_byte(b' ');
        self.put_lasting(duration);
    }

    // Ruled out: width and height in each other's place.
    fn put_area(&mut self, x1: u64, y1: u64, width: u64, height: u64)
        requires { self.old.len + 84 ≤ 256 }
        ensures put { Put 84 self.old.bytes.now self.old.len (area x1 y1 width height) self.new.len self.new.bytes.now }
        ensures same_line { self.new.bytes.ghost_name ≡ self.old.bytes.ghost_name }
    {
        self.put_field(x1);
        self.put_field(y1);
        self.put_field(width);
        self.put_field(height);
    }

    // Both delays and the number of codes, and the end of the line: a list of fields as `put_area` is, of another length.
    // Ruled out: the delay of the stop before that of the start.
    fn put_delays(&mut self, start: u64, stop: u64, codes: u64)
        requires { self.old.len + 64 ≤ 256 }
        ensures put { Put 64 self.old.bytes.now self.old.len (delays start stop codes) self.new.len self.new.bytes.now }
        ensures same_line { self.new.bytes.ghost_name ≡ self.old.bytes.ghost_name }
    {
        self.put_field(start);
        self.put_field(stop);
        self.put_field(codes);
        self.put_newline();
    }

    // The line of a cue with these times and the record s.
    fn put_shown(&mut self, n: usize, start: i64, duration: Option<u64>, s: Spu)
        requires { (s.x1 ≤ s.x2) × (s.y1 ≤ s.y2) × (self.old.len + 210 ≤ 256) }
        ensures put { Put 210 self.old.bytes.now self.old.len (shown_line n (record_shown start duration s)) self.new.len self.new.bytes.now }
        ensures same_line { self.new.bytes.ghost_name ≡ self.old.bytes.ghost_name }
    {
        // a record's size is worked out where it is wanted: its crate is a model, which has no function
        let width = s.x2 as u64 + 1 - s.x1 as u64;
        let height = s.y2 as u64 + 1 - s.y1 as u64;
        self.put_times(n as u64, start, duration);
        self.put_area(s.x1 as u64, s.y1 as u64, width, height);
        self.put_delays(
            s.start_delay_raw.0 as u64,
            s.stop_delay_raw.0 as u64,
            s.codes as u64,
        );
    }

    // A word, a number and the end of the line.
    fn put_numbered(&mut self, word: &[u8], n: u64)
        requires { self.old.len + (length word.now + 22) ≤ 256 }
        ensures put { Put (length word.now + 22) self.old.bytes.now self.old.len (word.now ++ (field (decimal n) ++ newline)) self.new.len self.new.bytes.now }
        ensures same_line { self.new.bytes.ghost_name ≡ self.old.bytes.ghost_name }
    {
        self.put_word(word);
        self.put_field(n);
        self.put_newline();
    }

    // The line of a cue that is refused.
    fn put_refused(&mut self, n: usize, refusal: Refusal)
        requires { self.old.len + 210 ≤ 256 }
        ensures put { Put 210 self.old.bytes.now self.old.len (refused_line n (number_of refusal)) self.new.len self.new.bytes.now }
        ensures same_line { self.new.bytes.ghost_name ≡ self.old.bytes.ghost_name }
    {
        self.put_number(n as u64);
        self.put_numbered(b" refused", refusal.number() as u64);
    }
}

// The record of a unit of a cue with this start.
// Ruled out: a cue listed whose show or hide time leaves.
fn measured_in_time(unit: &[u8], start: Micros) -> Result<Spu, Refusal>
    ensures { answered result ≡ spu_answer (unit_in_time start.0 (unit_at unit.now)) }
{
    let spu = spu::measure_spu(unit)?;
    let starts = spu.started.then_some(spu.start_delay_raw);
    let stops = spu.stopped.then_some(spu.stop_delay_raw);
    clock::times_of(start, starts, stops)?;
    Ok(spu)
}

// The record of the unit at this position. A unit has at most 65,535 bytes, so scratch holds every one.
fn measured_at(
    file: &[u8],
    position: u32,
    start: Micros,
    scratch: &mut [u8; 65536],
) -> Result<Spu, Refusal>
    ensures { (answered result ≡ spu_answer (timed_for start.0 file.now position))
        × (scratch.new ≡ sets scratch.old 0 (unit_stored (form_at (stream_id list_stream) file.now position))) }
{
    let unit = ps::extract_spu(file, position as usize, STREAM, scratch)?;
    let bytes = ps::unit_part(file, &scratch[..], position as usize, Some(unit));
    measured_in_time(bytes, start)
}

// The line of a cue with this start and duration and this position.
fn put_cue(
    file: &[u8],
    position: u32,
    n: usize,
    start: Micros,
    duration: Option<u64>,
    scratch: &mut [u8; 65536],
    line: &mut Line,
)
    requires { line.old.len + 210 ≤ 256 }
    ensures put { (Put 210 line.old.bytes.now line.old.len (position_line n start.0 duration file.now position) line.new.len line.new.bytes.now)
        × (scratch.new ≡ sets scratch.old 0 (unit_stored (form_at (stream_id list_stream) file.now position))) }
    ensures same_line { line.new.bytes.ghost_name ≡ line.old.bytes.ghost_name }
{
    match measured_at(file, position, start, scratch) {
        Ok(spu) => line.put_shown(n, start.0, duration, spu),
        Err(refusal) => line.put_refused(n, refusal),
    }
}

// The line of cue n, of the first `cues` that the two buffers hold, and its length. A unit that packets hold is joined in the front of
// scratch.
// The two buffers are those that `idx::parse_idx` fills, as C lends them.
// Ruled out: a cue's line with the times of another; a line that is refused where the files have a reading for the cue
// and stream 0.
pub fn cue_line(
    file: &[u8],
    starts: &[i64],
    positions: &[u32],
    cues: usize,
    n: usize,
    scratch: &mut [u8; 65536],
    line: &mut [u8; 256],
) -> usize
    ensures { Written (cue_line (table_of starts.now positions.now cues) file.now n) line.old result line.new
        × Exactly (table_of starts.now positions.now cues) file.now n line.old line.new
        × (scratch.new ≡ sets scratch.old 0 (unit_stored (form_for (table_of starts.now positions.now cues) file.now n)))
        × Undisturbed (table_of starts.now positions.now cues) file.now n line.old scratch.old result line.new scratch.new }
{
    let size = lesser(cues, lesser(starts.len(), positions.len()));
    let mut written = Line::new(line);
    if size <= n {
        written.put_refused(n, Refusal::NoCue);
        return written.len;
    }
    let start = Micros(starts[n]);
    let next = n + 1;
    let duration = if next < size {
        Some(clock::count_of(idx::duration_of(start, Micros(starts[next]))))
    } else {
        None
    };
    put_cue(
        file,
        positions[n],
        n,
        start,
        duration,
        scratch,
        &mut written,
    );
    written.len
}

// The first line of a title, and its cues in the front of both buffers. `there` says that both files are there; the index is read only
// where neither is too long. Such a text has at most 65,537 lines, and one cue where it has no bytes, so the buffers
// hold every cue. An Option of each file would have four cases, where one flag has the two that are asked.
// Ruled out: the index read before the size of the other file is known; cues of an index that is refused.
pub fn title_line(
    there: bool,
    text: &[u8],
    file: &[u8],
    starts: &mut [i64; 65537],
    positions: &mut [u32; 65537],
    line: &mut [u8; 256],
) -> Head
    ensures { Headed there text.now file.now starts.old positions.old line.old result starts.new positions.new line.new }
{
    let mut written = Line::new(line);
    if !there || text.len() > MOST || file.len() > MOST {
        written.put_word(b"file refused");
        written.put_newline();
        return Head {
            size: written.len,
            cues: 0,
        };
    }
    match idx::parse_idx(text, starts, positions) {
        Ok(index) => {
            written.put_numbered(b"cues", index.cues as u64);
            Head {
                size: written.len,
                cues: index.cues,
            }
        }
        Err(refusal) => {
            written.put_numbered(b"index refused", refusal.number() as u64);
            Head {
                size: written.len,
                cues: 0,
            }
        }
    }
}
