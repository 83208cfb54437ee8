// The code at a place of a field, read nibble by nibble through a reader, and what it paints of a row (docs/FORMAT.md, section 5).
#![tactic(auto)]

ghost use Rattle.std.specs.Prelude.{◌≡◌, ℕ, length};
ghost use Rattle.outcome.specs.Outcome.{answered};
ghost use Rattle.grammar.specs.Rows.{code, paints};
ghost use Rattle.rle_model.specs.Codes.{code_at};
ghost use Rattle.rle_model.specs.CodeAnswers.{code_answer, code_end};

use nibbles::NibbleReader;
use outcome::{Refusal, lesser};
use rle_model::CodeRead;

// The code at the reader's place: the first number of nibbles that makes a number large enough for it, four at most (FORMAT 5.2);
// and whether it is longer than the `left` pixels of its row (FORMAT 5.11). The reader goes on behind it, or to where the field ran out.
// Ruled out: a place past the end taken for a fill; a longer code where a shorter one stands; a code as long as what is
// left, or a fill, taken for a clipped one.
pub fn read_code(reader: &mut NibbleReader, left: usize) -> Result<CodeRead, Refusal>
    ensures code { answered result ≡ code_answer left (code_at reader.old.buf.now (length reader.old.buf.now) reader.old.pos) }
    ensures place { reader.new.pos ≡ code_end reader.old.buf.now reader.old.pos (code_at reader.old.buf.now (length reader.old.buf.now) reader.old.pos) }
    ensures field { reader.new.buf ≡ reader.old.buf }
{
    let mut value: usize = 0;
    // 4 to the power of the size: what a code of so many nibbles makes at least
    let mut least: usize = 1;
    for before in 0..4 {
        let nibble = reader.read()?;
        value = value * 16 + nibble;
        least *= 4;
        if least <= value {
            let run = value / 4;
            let clipped = left < run;
            return Ok(CodeRead {
                size: before + 1,
                value,
                clipped,
            });
        }
    }
    // four nibbles too small for a run: a fill, which is never clipped
    Ok(CodeRead {
        size: 4,
        value,
        clipped: false,
    })
}

// How many of the pixels left a code paints.
// Ruled out: a run past the row's end; a fill of four nibbles taken for a run of v/4.
pub fn painted(left: usize, size: usize, value: usize) -> usize
    ensures { (p : ℕ) → result ≡ paints left (code p size value) }
{
    let run = lesser(left, value / 4);
    if size == 4 {
        if value < 256 {
            return left;
        }
        return run;
    }
    run
}
