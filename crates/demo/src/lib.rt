// Writes a picture as a unit (docs/FORMAT.md, section 7).
#![tactic(auto)]

ghost use Rattle.std.specs.Prelude.{◌≡◌, List, [], ◌∷◌, ◌++◌, ℕ, ◌≤◌, ◌<◌, ◌-◌, ◌+◌, ◌*◌, ◌/◌, ◌%◌, length, drop, set, leb, eqb};
ghost use Rattle.std.specs.List.{list_all, prefix_len};
ghost use Rattle.std.proofs.lemmas.List.Edits.{sets};
ghost use Rattle.demo_model.specs.Claim.{RoundTrips};
ghost use Rattle.grammar.specs.Bytes.{byte};
ghost use Rattle.grammar.specs.Picture.{evens};
ghost use Rattle.demo_model.specs.Codes.{run_size, run_marks, last_marks, digits, nibbles_of, evened, row_marks, field_nibbles, picture_rows, lead};
ghost use Rattle.outcome.specs.Outcome.{answered, listed};
ghost use Rattle.demo_model.specs.Unit.{is_side, all_colours, Four, word_bytes, unit_of, sized_unit};
ghost use Rattle.demo_model.specs.Props.{Sound-prop};
ghost use Rattle.demo_model.specs.Answers.{Inked, Sound, EndsOf, FieldsWritten, demo_given, Written};

use demo_model::{Ends, NibbleWriter};
use outcome::{Refusal, put};

// A picture that may be written.
#[derive(Clone, Copy)]
struct Picture<'a> {
    indices: &'a [u8],
    width: usize,
    height: usize,
    ghost sound: { Sound width height indices.now } by { Sound-prop width height indices.now },
}

// Writes nibbles one after the other, from byte 4 of the output on; past its end nothing is stored.
#[derive(Drop)]
struct Writer<'a> {
    out: &'a mut [u8],
    pen: NibbleWriter,
}

impl<'a> Writer<'a> {
    // One nibble more.
    fn write(&mut self, nibble: u8)
        requires { (nibble < 16) × (self.old.pen.pos < 1000000000) }
        ensures same_output { self.new.out.ghost_name ≡ self.old.out.ghost_name }
        ensures count { self.new.pen.pos ≡ self.old.pen.pos + 1 }
        ensures inked { (ns o : List ℕ) → Inked ns o self.old.pen self.old.out.now → Inked (ns ++ (nibble ∷ [])) o self.new.pen self.new.out.now }
    {
        let place = 4 + self.pen.pos / 2;
        let pos = self.pen.pos + 1;
        if self.pen.pos % 2 == 0 {
            put(self.out, place, nibble * 16);
            self.pen = NibbleWriter { pos, high: nibble };
        } else {
            put(self.out, place, self.pen.high * 16 + nibble);
            self.pen = NibbleWriter { pos, high: 0 };
        }
    }

    // A code: the nibbles that make its number, the high one first.
    fn emit_code(&mut self, size: usize, value: usize)
        requires { self.old.pen.pos + size < 1000000000 }
        ensures same_output { self.new.out.ghost_name ≡ self.old.out.ghost_name }
        ensures count { self.new.pen.pos ≡ self.old.pen.pos + size }
        ensures inked { (ns o : List ℕ) → Inked ns o self.old.pen self.old.out.now → Inked (ns ++ digits size value) o self.new.pen self.new.out.now }
    {
        if size == 0 {
            return;
        }
        self.emit_code(size - 1, value / 16);
        self.write((value % 16) as u8);
    }

    // A run that does not reach the row's end; past 255 it is cut, and the rest is a run again.
    fn emit_rle(&mut self, run: usize, colour: u8)
        requires { (1 ≤ run) × (colour < 4) × (self.old.pen.pos + 4 * run < 1000000000) }
        ensures same_output { self.new.out.ghost_name ≡ self.old.out.ghost_name }
        ensures most { self.new.pen.pos ≤ self.old.pen.pos + 4 * run }
        ensures inked { (ns o : List ℕ) → Inked ns o self.old.pen self.old.out.now → Inked (ns ++ nibbles_of (run_marks run colour)) o self.new.pen self.new.out.now }
    {
        if run <= 255 {
            return self.emit_code(size_of_run(run), 4 * run + usize::from(colour));
        }
        self.emit_code(4, 1020 + usize::from(colour));
        self.emit_rle(run - 255, colour);
    }

    // The codes of a row.
    fn emit_row(&mut self, row: &[u8])
        requires { Four row.now × (self.old.pen.pos + 4 * length row.now < 1000000000) }
        ensures same_output { self.new.out.ghost_name ≡ self.old.out.ghost_name }
        ensures most { self.new.pen.pos ≤ self.old.pen.pos + 4 * length row.now }
        ensures inked { (ns o : List ℕ) → Inked ns o self.old.pen self.old.out.now → Inked (ns ++ nibbles_of (row_marks last_marks row.now)) o self.new.pen self.new.out.now }
    {
        let mut col = 0;
        // no index is counted: each run says where the next begins
        while col < row.len() {
            let rest = &row[col..];
            let n = run_length(rest);
            let colour = row[col];
            if n == row.len() - col {
                return self.emit_code(4, usize::from(colour));
            }
            self.emit_rle(n, colour);
            col += n;
        }
    }

    // Up to a whole byte.
    fn align(&mut self)
        requires { self.old.pen.pos < 1000000000 }
        ensures same_output { self.new.out.ghost_name ≡ self.old.out.ghost_name }
        ensures most { self.new.pen.pos ≤ self.old.pen.pos + 1 }
        ensures inked { (ns o : List ℕ) → Inked ns o self.old.pen self.old.out.now → Inked (evened ns) o self.new.pen self.new.out.now }
    {
        if self.pen.pos % 2 == 1 {
            self.write(0);
        }
    }

    // The rows of a field, from row `start` on.
    fn emit_field(&mut self, picture: Picture, start: usize)
        requires { (start ≤ 1) × (self.old.pen.pos ≤ 70000000) }
        ensures same_output { self.new.out.ghost_name ≡ self.old.out.ghost_name }
        ensures most { self.new.pen.pos ≤ self.old.pen.pos + 16385 * (picture.entry.height + 1) }
        ensures inked { (ns o : List ℕ) → length ns % 2 ≡ 0 → Inked ns o self.old.pen self.old.out.now → Inked (ns ++ field_nibbles last_marks (evens (picture_rows picture.entry.width (picture.entry.height - start) (drop (start * picture.entry.width) picture.entry.indices.now)))) o self.new.pen self.new.out.now }
    {
        let Picture {
            indices,
            width,
            height,
        } = picture;
        for row in (start..height).step_by(2) {
            let from = row * width;
            self.emit_row(&indices[from..from + width]);
            self.align();
        }
    }
}

// The fewest nibbles for a run.
fn size_of_run(run: usize) -> usize
    ensures { result ≡ run_size run }
{
    match run {
        0..4 => 1,
        4..16 => 2,
        16..64 => 3,
        _ => 4,
    }
}

// How many pixels at the front of a row have that colour.
fn leading(row: &[u8], colour: u8) -> usize
    ensures { result ≡ prefix_len (λ x. eqb x colour) row.now }
{
    row.iter().take_while(|&&index| index == colour).count()
}

// How many pixels at the front of a row have the colour of the first.
fn run_length(row: &[u8]) -> usize
    requires { 0 < length row.now }
    ensures { (result ≡ lead (byte row.now 0) row.now) × (1 ≤ result) × (result ≤ length row.now) }
{
    leading(row, row[0])
}

// Whether a side is 1 to 4,096.
fn is_side(n: usize) -> bool
    ensures { result ≡ is_side n }
{
    matches!(n, 1..=4096)
}

// Whether every index is one of four colours.
fn all_colours(indices: &[u8]) -> bool
    ensures { result ≡ list_all (λ x. leb x 3) indices.now }
{
    indices.iter().all(|&index| index <= 3)
}

// Both fields, from byte 4 of the output on.
fn write_fields(picture: Picture, out: &mut [u8]) -> Ends
    ensures { FieldsWritten picture.entry.width picture.entry.height picture.entry.indices.now out.old result out.new }
{
    let mut writer = Writer {
        out,
        pen: NibbleWriter { pos: 0, high: 0 },
    };
    writer.emit_field(picture, 0);
    let top = writer.pen.pos;
    writer.emit_field(picture, 1);
    Ends {
        top,
        all: writer.pen.pos,
    }
}

// A word, the high byte first.
fn word_bytes(n: usize) -> [u8; 2]
    requires { n < 65536 }
    ensures { result ≡ word_bytes n }
{
    (n as u16).to_be_bytes()
}

// The unit of a picture whose fields were measured.
fn put_unit(picture: Picture, ends: Ends, out: &mut [u8])
    requires { EndsOf picture.width picture.height picture.indices.now ends × (28 + ends.all / 2 ≤ 65535) × (28 + ends.all / 2 ≤ length out.old) }
    ensures { out.new ≡ sets out.old 0 (unit_of last_marks picture.entry.width picture.entry.height picture.entry.indices.now) }
{
    let control = 4 + ends.all / 2;
    let length = control + 24;
    let [length_high, length_low] = word_bytes(length);
    let [control_high, control_low] = word_bytes(control);
    let head = [length_high, length_low, control_high, control_low];
    out[..4].copy_from_slice(&head);
    write_fields(picture, out);
    let [x_high, x_low] = word_bytes(picture.width - 1);
    let [y_high, y_low] = word_bytes(picture.height - 1);
    let [bottom_high, bottom_low] = word_bytes(4 + ends.top / 2);
    let block = [
        0,
        0,
        control_high,
        control_low,
        0x03,
        0x01,
        0x32,
        0x04,
        0x0F,
        0xFF,
        0x05,
        0,
        x_high,
        x_low,
        0,
        y_high,
        y_low,
        0x06,
        0,
        4,
        bottom_high,
        bottom_low,
        0x01,
        0xFF,
    ];
    out[control..control + block.len()].copy_from_slice(&block);
}

// The unit of a picture that may be written, where it is short enough and the output long enough.
fn write_unit(picture: Picture, out: &mut [u8]) -> Result<usize, Refusal>
    ensures answer { answered result ≡ demo_given (sized_unit picture.entry.width picture.entry.height picture.entry.indices.now (length out.old)) }
    ensures output { out.new ≡ sets out.old 0 (listed (sized_unit picture.entry.width picture.entry.height picture.entry.indices.now (length out.old))) }
{
    let ends = write_fields(picture, &mut out[..0]);
    let length = 28 + ends.all / 2;
    if 65535 < length {
        return Err(Refusal::LongUnit);
    }
    if out.len() < length {
        return Err(Refusal::ShortOutput);
    }
    put_unit(picture, ends, out);
    Ok(length)
}

// Writes a picture as a unit into the front of the output, which is as found on a refusal.
// Ruled out: a unit of another picture of that size; a byte stored before the unit is known to fit.
pub fn build_demo_spu(
    width: usize,
    height: usize,
    indices: &[u8],
    out: &mut [u8],
) -> Result<usize, Refusal>
    ensures { Written width height indices.now out.old (answered result) out.new × RoundTrips width height indices.now (answered result) out.new }
{
    if !is_side(width) {
        return Err(Refusal::BadSide);
    }
    if !is_side(height) {
        return Err(Refusal::BadSide);
    }
    if indices.len() != width * height {
        return Err(Refusal::NotAllIndices);
    }
    if !all_colours(indices) {
        return Err(Refusal::BadIndex);
    }
    let picture = Picture {
        indices,
        width,
        height,
    };
    write_unit(picture, out)
}
