// A reader of a field's nibbles: the field and a half-byte count, as the original has it (docs/FORMAT.md, section 5).
// Each function over the reader is thin over one that takes the field and the count.
#![tactic(auto)]

ghost use Rattle.std.specs.Prelude.{◌≡◌};
ghost use Rattle.outcome.specs.Outcome.{answered};
ghost use Rattle.rle_model.specs.Nibbles.{nibble_at, past_nibble, on_byte};

use outcome::Refusal;

#[derive(Drop)]
pub struct NibbleReader<'a> {
    pub buf: &'a [u8],
    // How many half bytes were read.
    pub pos: usize,
}

// The nibble at half byte pos, or 26 where the field ran out.
// Ruled out: the low half of a byte first; a nibble past the field's end.
#[tactic(auto, using(crate::proofs::Steps::high))]
pub fn nibble_at(field: &[u8], pos: usize) -> Result<usize, Refusal>
    ensures { answered result ≡ nibble_at field.now pos }
{
    let i = pos / 2;
    if field.len() <= i {
        return Err(Refusal::FieldRanOut);
    }
    // widened at once: a nibble that is a byte costs its readers more (docs/DECISIONS.md)
    let b = usize::from(field[i]);
    if pos % 2 == 0 {
        return Ok(b / 16);
    }
    Ok(b % 16)
}

// The count after a read at pos: the next one where there is a nibble, and pos itself where the field ran out.
// Ruled out: a count that goes on where nothing was read; a count that stays where a nibble was.
pub fn past_nibble(field: &[u8], pos: usize) -> usize
    ensures { result ≡ past_nibble field.now pos }
{
    if pos / 2 < field.len() {
        return pos + 1;
    }
    pos
}

// The first count from pos on that starts a byte; the largest count has none after it, and stays.
// Ruled out: an even count moved; an odd one that stays because the field has ended.
pub fn on_byte(field: &[u8], pos: usize) -> usize
    ensures { result ≡ on_byte pos }
{
    // rows are aligned inside the field, where no count is the largest
    if pos / 2 < field.len() {
        return pos + pos % 2;
    }
    if pos == usize::MAX {
        return pos;
    }
    pos + pos % 2
}

impl<'a> NibbleReader<'a> {
    // A reader at the field's first nibble.
    // Ruled out: a reader that starts at another count; one over a part of the field.
    pub fn new(buf: &'a [u8]) -> NibbleReader<'a>
        ensures { (result.buf ≡ buf.entry) × (result.pos ≡ 0) }
    {
        NibbleReader { buf, pos: 0 }
    }

    // The next nibble, and the count goes on; or the field ran out, and the count stays.
    // Ruled out: the low half of a byte first; a count that goes on past the field's end.
    pub fn read(&mut self) -> Result<usize, Refusal>
        ensures { (answered result ≡ nibble_at self.old.buf.now self.old.pos) × (self.new.buf ≡ self.old.buf) × (self.new.pos ≡ past_nibble self.old.buf.now self.old.pos) }
    {
        let buf = self.buf;
        let pos = self.pos;
        let n = nibble_at(buf, pos);
        self.pos = past_nibble(buf, pos);
        n
    }

    // An odd count goes to the next even one.
    // Ruled out: another field left in the reader; a whole byte skipped at an even count.
    pub fn align(&mut self)
        ensures { (self.new.buf ≡ self.old.buf) × (self.new.pos ≡ on_byte self.old.pos) }
    {
        self.pos = on_byte(self.buf, self.pos);
    }
}

// The nibble at half byte pos, read through a reader.
// Ruled out: the first nibble whatever pos is; the nibble after pos.
pub fn read_through(field: &[u8], pos: usize) -> Result<usize, Refusal>
    ensures { answered result ≡ nibble_at field.now pos }
{
    let mut reader = NibbleReader::new(field);
    reader.pos = pos;
    reader.read()
}

// The count to which a reader at half byte pos aligns, in the same way.
// Ruled out: the count after a read; pos whatever it is.
pub fn align_through(field: &[u8], pos: usize) -> usize
    ensures { result ≡ on_byte pos }
{
    let mut reader = NibbleReader { buf: field, pos };
    reader.align();
    reader.pos
}
