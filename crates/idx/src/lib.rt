// The index text as a whole (docs/FORMAT.md, section 1): size, palette and cue table, or one cue of it.
#![tactic(auto)]

ghost use Rattle.std.specs.Prelude.{◌≡◌, [], ℕ, ◌<◌, ◌+◌, ◌^◌, min, pos, ◌-ℤ◌, length};
ghost use Rattle.std.specs.Prelude.{Some as some, Ok};
ghost use Rattle.idx_model.specs.Claim.{IdxSays, CueSays};
ghost use Rattle.outcome.specs.Outcome.{ok, answered, IsOk};
ghost use Rattle.grammar.specs.IndexParts.{line_end};
ghost use Rattle.grammar.specs.Index.{ListedText, greys};
ghost use Rattle.grammar.specs.IndexCues.{palette_of, clip};
ghost use Rattle.idx_numbers_model.specs.Parts.{all, split};
ghost use Rattle.idx_lines_model.specs.Answers.{line_says};
ghost use Rattle.idx_model.specs.Text.{low_byte, lines_in, text_in, idx_in, idx_of};
ghost use Rattle.idx_model.specs.Answers.{see_cue, see_line, MeasuredAs, seen_of, IdxMeasuredAs, CueFits, CueStored, CuesStored, lines_with, idx_with, idx_answer, IdxStored, IdxRead, pick_of, cue_answer};

use clock_model::Micros;
use idx_lines::read_line;
use idx_lines_model::Directive;
use idx_model::{CueAnswer, IdxAnswer, Seen};
use idx_numbers::{trim, until};
use outcome::Refusal;

// The byte that ends a line.
const LINE_END: u8 = 10;

// Whether all bytes are below 80. With no way out of the loop many are tested at once: on 700,000 bytes it takes 18 µs, `is_ascii` 22.
fn is_low(s: &[u8]) -> bool
    ensures { result ≡ all low_byte s.now }
{
    let mut low = true;
    for b in s {
        if *b >= 128 {
            low = false;
        }
    }
    low
}

// A cue more: it is the one looked for, the one after it, or another.
fn with_cue(seen: Seen, start: i64, position: u32, cue: usize) -> Seen
    requires { seen.cues + 1 < 2 ^ 64 }
    ensures { result ≡ see_cue cue seen start position }
{
    let cues = seen.cues + 1;
    match seen.cues.checked_sub(cue) {
        Some(0) => Seen {
            cues,
            start,
            position,
            ..seen
        },
        Some(1) => Seen {
            cues,
            next: start,
            ..seen
        },
        _ => Seen { cues, ..seen },
    }
}

// One line more, with room for so many cues.
fn seen_line(seen: Seen, line: Option<Directive>, cue: usize, room: usize) -> Result<Seen, Refusal>
    ensures { answered result ≡ see_line cue room seen (line_says (Ok line)) }
{
    match line {
        None => Ok(seen),
        Some(Directive::Size(width, height)) => Ok(Seen {
            width,
            height,
            ..seen
        }),
        Some(Directive::Palette(any)) => Ok(Seen {
            has_palette: any || seen.has_palette,
            ..seen
        }),
        Some(Directive::Cue(start, position)) => {
            if seen.cues >= room {
                return Err(Refusal::ShortCues);
            }
            Ok(with_cue(seen, start, position, cue))
        }
    }
}

// All lines: each turn goes on behind the line that was read, which `until` finds eight bytes at a time, as no `split` does. Text, room, cue and palette come here through two tests, each with a promise of
// its own: a struct of the four would be made once and taken apart once.
fn measure_lines(
    text: &[u8],
    room: usize,
    cue: usize,
    palette: &mut [u8; 48],
) -> Result<Seen, Refusal>
    ensures { MeasuredAs cue palette.old (lines_in (some room) 0 (split line_end 0 text.now)) (answered result) palette.new }
{
    let mut seen = Seen {
        cues: 0,
        width: 0,
        height: 0,
        has_palette: false,
        start: 0,
        position: 0,
        next: 0,
    };
    let mut i = 0;
    loop {
        let e = i + until(&text[i..], LINE_END);
        let l = trim(&text[i..e]);
        let line = read_line(l, palette)?;
        seen = seen_line(seen, line, cue, room)?;
        if e >= text.len() {
            return Ok(seen);
        }
        i = e + 1;
    }
}

// The whole text, with room for so many cues.
fn measure(text: &[u8], room: usize, cue: usize, palette: &mut [u8; 48]) -> Result<Seen, Refusal>
    ensures { MeasuredAs cue palette.old (text_in (some room) text.now) (answered result) palette.new }
{
    if !is_low(text) {
        return Err(Refusal::HighByte);
    }
    measure_lines(text, room, cue, palette)
}

// The palette of a text of no bytes: red, green and blue of entry i are 17 times i.
fn grey_palette() -> [u8; 48]
    ensures { result ≡ greys }
{
    std::array::from_fn(|i| (i / 3 * 17) as u8)
}

// A text of no bytes: one cue, in greys.
fn measure_empty(room: usize, palette: &mut [u8; 48]) -> Result<Seen, Refusal>
    ensures { (cue : ℕ) → IdxMeasuredAs cue palette.old (idx_in (some room) []) (answered result) palette.new }
{
    if room == 0 {
        return Err(Refusal::ShortCues);
    }
    let greys = grey_palette();
    *palette = greys;
    Ok(Seen {
        cues: 1,
        width: 0,
        height: 0,
        has_palette: false,
        start: 0,
        position: 0,
        next: 0,
    })
}

// The text, with a byte or without. It gives what lines give in either case, so that both have one way to the answers.
fn measure_idx(
    text: &[u8],
    room: usize,
    cue: usize,
    palette: &mut [u8; 48],
) -> Result<Seen, Refusal>
    ensures { IdxMeasuredAs cue palette.old (idx_in (some room) text.now) (answered result) palette.new }
{
    if text.is_empty() {
        return measure_empty(room, palette);
    }
    measure(text, room, cue, palette)
}

// A line's cue, if it has one, stored as cue n; how many there are then.
fn store_cue(
    line: Result<Option<Directive>, Refusal>,
    n: usize,
    starts: &mut [i64],
    positions: &mut [u32],
) -> usize
    requires { CueFits line n (length starts.old) (length positions.old) }
    ensures { CueStored line n starts.old positions.old result starts.new positions.new }
{
    let Ok(Some(Directive::Cue(start, position))) = line else {
        return n;
    };
    starts[n] = start;
    positions[n] = position;
    n + 1
}

// The cues of a text that was measured, stored from the front of both buffers on, which are two and parallel as C lends them. Its loop is
// that of `measure_lines`, which stops and counts where this one stores: one walk over a closure would hide from both what the closure changes.
fn fill(text: &[u8], starts: &mut [i64], positions: &mut [u32])
    requires { IsOk (lines_with starts.old positions.old text.now) }
    ensures { CuesStored (lines_with starts.old positions.old text.now) starts.old positions.old starts.new positions.new }
{
    let mut palette = [0u8; 48];
    let mut n: usize = 0;
    let mut i = 0;
    loop {
        let e = i + until(&text[i..], LINE_END);
        let l = trim(&text[i..e]);
        let line = read_line(l, &mut palette);
        n = store_cue(line, n, starts, positions);
        if e >= text.len() {
            return;
        }
        i = e + 1;
    }
}

// The cues of a text that was measured, with a byte or without.
fn fill_idx(text: &[u8], starts: &mut [i64], positions: &mut [u32])
    requires { IsOk (idx_with starts.old positions.old text.now) }
    ensures { IdxStored text.now starts.old positions.old starts.new positions.new }
{
    if text.is_empty() {
        starts[0] = 0;
        positions[0] = 0;
        return;
    }
    fill(text, starts, positions);
}

fn accepted_idx(seen: Seen, palette: [u8; 48]) -> IdxAnswer
    ensures { (t : ListedText) (cue : ℕ) → seen ≡ seen_of cue t → palette ≡ palette_of t → ok result ≡ idx_answer (ok t) }
{
    IdxAnswer {
        width: seen.width,
        height: seen.height,
        has_palette: seen.has_palette,
        palette,
        cues: seen.cues,
    }
}

// Size, palette and cues of a text: start and position of each cue go to the front of the lent buffers. A cue beyond the shorter one is
// refused, in turn with the other faults of its line and of the lines before it; on a refusal both buffers are as found. A text of no
// bytes is one cue, in greys.
// Ruled out: a later fault answered, and a cue stored on a refusal.
pub fn parse_idx(
    text: &[u8],
    starts: &mut [i64],
    positions: &mut [u32],
) -> Result<IdxAnswer, Refusal>
    ensures { IdxRead text.now starts.old positions.old (answered result) starts.new positions.new × IdxSays text.now starts.old positions.old (answered result) starts.new positions.new }
{
    let room = starts.len().min(positions.len());
    let mut palette = [0u8; 48];
    let seen = measure_idx(text, room, 0, &mut palette)?;
    fill_idx(text, starts, positions);
    Ok(accepted_idx(seen, palette))
}

// The time up to the next start: 0 at least, and the largest signed number at most.
// Ruled out: a difference below 0 wrapped; one above the largest signed number wrapped.
pub fn duration_of(start: Micros, next: Micros) -> Micros
    ensures { result.0 ≡ pos (clip (next.0 -ℤ start.0)) }
{
    Micros(next.0.saturating_sub(start.0).max(0))
}

fn picked_cue(seen: Seen, cue: usize, palette: [u8; 48]) -> Result<CueAnswer, Refusal>
    ensures { (t : ListedText) → seen ≡ seen_of cue t → palette ≡ palette_of t → answered result ≡ cue_answer (pick_of (ok t) cue) }
{
    if cue >= seen.cues {
        return Err(Refusal::NoCue);
    }
    let start = Micros(seen.start);
    let duration = (seen.cues - cue > 1).then_some(duration_of(start, Micros(seen.next)));
    Ok(CueAnswer {
        start,
        position: seen.position,
        duration,
        has_palette: seen.has_palette,
        palette,
    })
}

// One cue of a text, without cue buffers: every line is checked all the same. A text of no bytes has cue 0, in greys.
// Ruled out: a text with a bad later line accepted, and a duration below 0.
pub fn pick_cue(text: &[u8], cue: usize) -> Result<CueAnswer, Refusal>
    ensures { (answered result ≡ cue_answer (pick_of (idx_of text.now) cue)) × CueSays text.now cue (answered result) }
{
    let mut palette = [0u8; 48];
    let seen = measure_idx(text, usize::MAX, cue, &mut palette)?;
    picked_cue(seen, cue, palette)
}
