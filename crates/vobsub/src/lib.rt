// The one call, from index text, file, cue number and stream to a cue's canvas, with painting inside it
// (docs/FORMAT.md, section 6).
#![tactic(auto)]

ghost use Rattle.std.specs.Prelude.{◌≡◌, List, ◌+◌, ◌*◌, ◌≤◌, ◌<◌, min, length};
ghost use Rattle.std.proofs.lemmas.List.Edits.{sets};
ghost use Rattle.std.proofs.Math.Seq.{slice};
ghost use Rattle.outcome.specs.Outcome.{ok, answered, number_of};
ghost use Rattle.clock_model.specs.Answers.{delayed, delay_in};
ghost use Rattle.control_model.specs.Answers.{spu_of};
ghost use Rattle.control_model.specs.Chain.{control_at};
ghost use Rattle.grammar.specs.Control.{Block};
ghost use Rattle.grammar.specs.Record.{told};
ghost use Rattle.grammar.specs.Canvas.{nibble_of, pixel, line_bytes};
ghost use Rattle.ps_model.specs.Answers.{unit_part};
ghost use Rattle.grammar.specs.Reading.{wanted};
ghost use Rattle.vobsub_model.specs.Call.{lent};
ghost use Rattle.spu_model.specs.Unit.{rows_at};
ghost use Rattle.vobsub_model.specs.Answers.{UnitPainted, shown_of, late_refusal, first_refusal, CuePainted};
ghost use Rattle.vobsub_model.specs.Claim.{Exactly, Undisturbed};
ghost use Rattle.vobsub_model.specs.Paint.{look_is, word_look, SameLook, four_colours, table_line, map_canvas};
ghost use Rattle.rle_model.specs.Answers.{nothing};

use clock_model::{Ticks, Times};
use control_model::Spu;
use idx_model::CueAnswer;
use outcome::Refusal;
use ps::TOP_STREAM;
use ps_model::UnitAt;
use vobsub_model::{Four, Request, Shown};

// The nibble of `four` for colour c.
fn nibble_of(four: u16, c: u8) -> u8
    ensures { result ≡ nibble_of four c }
{
    match c {
        0 => (four / 4096 % 16) as u8,
        1 => (four / 256 % 16) as u8,
        2 => (four / 16 % 16) as u8,
        _ => (four % 16) as u8,
    }
}

// How a picture looks: its palette, the unit's own selectors and alphas, and the words of its bands.
#[derive(Clone, Copy)]
struct Style<'a> {
    palette: [u8; 48],
    own: Four,
    words: &'a [u16],
}

// A place on the display.
#[derive(Clone, Copy)]
struct Place {
    x: u16,
    y: u16,
}

// A picture as colour numbers, line after line.
#[derive(Clone, Copy)]
struct Map<'a> {
    pixels: &'a [u8],
    width: usize,
    height: usize,
    ghost whole: { width * height ≤ length pixels.now },
}

impl<'a> Map<'a> {
    // The pixels of line r.
    fn row(self, r: usize) -> &'a [u8]
        requires { r < self.height }
        ensures { result.now ≡ slice (r * self.entry.width) (r * self.entry.width + self.entry.width) self.entry.pixels.now }
    {
        let from = r * self.width;
        &self.pixels[from..from + self.width]
    }
}

fn put4(p: [u8; 4], canvas: &mut [u8], at: usize)
    requires { at + 4 ≤ length canvas.old }
    ensures { canvas.new ≡ sets canvas.old at p }
{
    canvas[at..at + 4].copy_from_slice(&p);
}

fn at_most_3(c: u8) -> usize
    ensures { result ≡ min c 3 }
{
    usize::from(c).min(3)
}

// A line from its four colours and its pixels' colour numbers alone. The canvas is written by place, and each function asks for room from
// there on: what is written through `chunks_exact_mut` is not known afterwards.
fn paint_plain(colours: [u8; 16], row: &[u8], canvas: &mut [u8], at: usize)
    requires { at + 4 * length row.now ≤ length canvas.old }
    ensures { canvas.new ≡ sets canvas.old at (table_line colours row.now) }
{
    for (i, c) in row.iter().enumerate() {
        let k = 4 * at_most_3(*c);
        let p = [colours[k], colours[k + 1], colours[k + 2], colours[k + 3]];
        put4(p, canvas, at + 4 * i);
    }
}

impl<'a> Style<'a> {
    // The four bytes of a pixel of colour c with these selectors and alphas.
    // Ruled out: alpha alone left 0 where the colour is not; alpha for the selector.
    fn pixel_of(&self, four: Four, c: u8) -> [u8; 4]
        ensures { result ≡ pixel self.now.palette (look_is four.selectors four.alphas) c }
    {
        let alpha = nibble_of(four.alphas, c);
        if alpha == 0 {
            return [0u8; 4];
        }
        let k = 3 * nibble_of(four.selectors, c) as usize;
        [
            self.palette[k],
            self.palette[k + 1],
            self.palette[k + 2],
            alpha * 17,
        ]
    }

    // The pixels of the four colours that the unit has for its own, in one row, as the definition has them.
    fn four_colours(&self) -> [u8; 16]
        ensures { result ≡ four_colours self.now.palette (look_is self.now.own.selectors self.now.own.alphas) }
    {
        let a = self.pixel_of(self.own, 0);
        let b = self.pixel_of(self.own, 1);
        let c = self.pixel_of(self.own, 2);
        let d = self.pixel_of(self.own, 3);
        [
            a[0], a[1], a[2], a[3], b[0], b[1], b[2], b[3], c[0], c[1], c[2], c[3], d[0], d[1],
            d[2], d[3],
        ]
    }

    // What bands give at a place, or the unit's own selectors and alphas.
    fn look_at(&self, place: Place) -> Four
        ensures { SameLook result (word_look self.now.words.now (look_is self.now.own.selectors self.now.own.alphas) place.x place.y) }
    {
        look::chg_colcon_lookup(self.words, place.x, place.y).unwrap_or(self.own)
    }

    // A line under a band, place by place.
    fn paint_under(&self, place: Place, row: &[u8], canvas: &mut [u8], at: usize)
        requires { (at + 4 * length row.now ≤ length canvas.old) × (place.x + length row.now ≤ 65536) }
        ensures { canvas.new ≡ sets canvas.old at (line_bytes self.now.palette (word_look self.now.words.now (look_is self.now.own.selectors self.now.own.alphas)) place.x place.y row.now) }
    {
        for (i, c) in row.iter().enumerate() {
            let x = place.x + i as u16;
            let four = self.look_at(Place { x, y: place.y });
            let p = self.pixel_of(four, *c);
            put4(p, canvas, at + 4 * i);
        }
    }

    // A line of the display, from a place on. `colours` are the unit's own four.
    // Ruled out: a band looked for on a line that none spans; a line under a band painted in the unit's own colours.
    fn paint_line(&self, colours: [u8; 16], place: Place, row: &[u8], canvas: &mut [u8], at: usize)
        requires { (at + 4 * length row.now ≤ length canvas.old) × (place.x + length row.now ≤ 65536) × (colours ≡ four_colours self.now.palette (look_is self.now.own.selectors self.now.own.alphas)) }
        ensures { canvas.new ≡ sets canvas.old at (line_bytes self.now.palette (word_look self.now.words.now (look_is self.now.own.selectors self.now.own.alphas)) place.x place.y row.now) }
    {
        if look::spans_line(self.words, place.y) {
            self.paint_under(place, row, canvas, at);
            return;
        }
        paint_plain(colours, row, canvas, at);
    }

    // The lines of a picture whose first pixel is at that place of the display.
    fn paint(&self, place: Place, map: Map, canvas: &mut [u8])
        requires { (place.x + map.width ≤ 65536) × (place.y + map.height ≤ 65536) × (4 * (map.width * map.height) ≤ length canvas.old) }
        ensures { canvas.new ≡ sets canvas.old 0 (map_canvas self.now.palette (word_look self.now.words.now (look_is self.now.own.selectors self.now.own.alphas)) place.x place.y map.entry.width map.entry.height map.entry.pixels.now) }
    {
        let colours = self.four_colours();
        for r in 0..map.height {
            let y = place.y + r as u16;
            let line = Place { x: place.x, y };
            let row = map.row(r);
            self.paint_line(colours, line, row, canvas, 4 * (r * map.width));
        }
    }
}

// A cue's start and duration with the record and the times of its unit.
// Ruled out: x1 and y1 in each other's place; the delay of the stop for that of the start; the hide time for the show
// time.
fn shown_of(c: CueAnswer, s: Spu, times: Times) -> Shown
    requires { (s.x1 ≤ s.x2) × (s.y1 ≤ s.y2) }
    ensures { result ≡ shown_of c s times }
{
    let width = s.x2 as usize + 1 - s.x1 as usize;
    let height = s.y2 as usize + 1 - s.y1 as usize;
    Shown {
        start: c.start,
        duration: c.duration,
        started: s.started,
        stopped: s.stopped,
        start_delay: s.start_delay_raw,
        stop_delay: s.stop_delay_raw,
        show: times.show,
        hide: times.hide,
        x1: s.x1,
        y1: s.y1,
        width,
        height,
        codes: s.codes,
        clipped: s.clipped,
    }
}

// The refusal of a unit whose control blocks tell `spu` and whose times leave. Nothing is stored yet, so that its rows,
// which may be refused first, are only measured. Unit and record stand apart, as in `paint_told`.
// Ruled out: a time that leaves before rows that are refused.
fn late_refusal(unit: &[u8], spu: Spu) -> Refusal
    requires { (bs : List Block) × (control_at unit.now ≡ ok bs) × (spu ≡ spu_of (told bs) nothing) }
    ensures { (bs : List Block) → control_at unit.now ≡ ok bs → number_of result ≡ late_refusal (rows_at unit.now (told bs)) }
{
    spu::measure_rows(unit, spu)
        .err()
        .unwrap_or(Refusal::LongInstant)
}

// A delay of a record, where its command stands, which the record says beside it.
fn delay_of(given: bool, delay: Ticks) -> Option<Ticks>
    ensures { delay_in result ≡ delayed given delay.0 }
{
    given.then_some(delay)
}

// The rest of a unit of the cue c whose control blocks tell `spu`: what is shown, map and canvas. Unit and record stand
// apart, since it is not known of a slice in a struct that its elements are bytes, by which its bands have few words.
// Ruled out: a map or a canvas too short before bands that are too many.
fn paint_told(
    unit: &[u8],
    spu: Spu,
    c: CueAnswer,
    pixels: &mut [u8],
    canvas: &mut [u8],
) -> Result<Shown, Refusal>
    requires { (bs : List Block) × (control_at unit.now ≡ ok bs) × (spu ≡ spu_of (told bs) nothing) }
    ensures { UnitPainted unit.now c pixels.old canvas.old (answered result) pixels.new canvas.new }
{
    let words = bands::unit_bands(unit, spu.band_words)?;
    // The sides, a line each, here, in `shown_of` and in `spu`: a function would ask again for their order.
    let width = spu.x2 as usize + 1 - spu.x1 as usize;
    let height = spu.y2 as usize + 1 - spu.y1 as usize;
    let area = width * height;
    if pixels.len() < area {
        return Err(Refusal::ShortPixels);
    }
    if canvas.len() < 4 * area {
        return Err(Refusal::ShortCanvas);
    }
    let starts = delay_of(spu.started, spu.start_delay_raw);
    let stops = delay_of(spu.stopped, spu.stop_delay_raw);
    // another refusal may come first, so that of the times is not handed on
    let Ok(times) = clock::times_of(c.start, starts, stops) else {
        return Err(late_refusal(unit, spu));
    };
    let counts = spu::decode_rows(unit, spu, pixels)?;
    let palette = c.palette;
    let own = Four {
        selectors: spu.palette_sel,
        alphas: spu.alpha,
    };
    let style = Style {
        palette,
        own,
        words: &words[..spu.band_words],
    };
    let place = Place {
        x: spu.x1,
        y: spu.y1,
    };
    let map = Map {
        pixels: &pixels[..],
        width,
        height,
    };
    style.paint(place, map, canvas);
    Ok(shown_of(c, spu::with_counts(spu, counts), times))
}

// A unit of the cue c: what is shown, with its map and its canvas in the front of the lent buffers, which are as found
// on a refusal.
// Ruled out: a canvas in the map's place; a canvas of rows that are refused; one of a cue whose times leave.
fn paint_unit(
    unit: &[u8],
    c: CueAnswer,
    pixels: &mut [u8],
    canvas: &mut [u8],
) -> Result<Shown, Refusal>
    ensures { UnitPainted unit.now c pixels.old canvas.old (answered result) pixels.new canvas.new }
{
    let spu = control::parse_control(unit)?;
    paint_told(unit, spu, c, pixels, canvas)
}

// The unit that was found for the cue c, painted.
fn paint_found<'a>(
    file: &'a [u8],
    scratch: &'a [u8],
    unit: UnitAt,
    c: CueAnswer,
    pixels: &mut [u8],
    canvas: &mut [u8],
) -> Result<Shown, Refusal>
    ensures { UnitPainted (unit_part file.now scratch.now c.position (ok unit)) c pixels.old canvas.old (answered result) pixels.new canvas.new }
{
    let position = c.position as usize;
    let bytes = ps::unit_part(file, scratch, position, Some(unit));
    paint_unit(bytes, c, pixels, canvas)
}

// The refusal of a text or of a cue: of a text first, then of a stream, then of a cue that is not there.
fn first_refusal(refusal: Refusal, stream: usize) -> Refusal
    ensures { number_of result ≡ first_refusal (number_of refusal) stream }
{
    if stream <= TOP_STREAM {
        return refusal;
    }
    match refusal {
        Refusal::NoCue => Refusal::BadStream,
        _ => refusal,
    }
}

// The cue with that number in that stream, from index text and file: what is shown of it, with its canvas in the front
// of `canvas`, its index map in the front of `pixels`, and its unit in the front of `scratch` where packets hold it. A
// refusal leaves all as found, but for a unit that was already joined in scratch.
// Ruled out: a canvas of another cue's or another stream's unit; a refusal where these files have a reading for the cue
// and the stream and the buffers are long enough.
pub fn decode_cue(
    text: &[u8],
    file: &[u8],
    cue: usize,
    stream: usize,
    scratch: &mut [u8],
    pixels: &mut [u8],
    canvas: &mut [u8],
) -> Result<Shown, Refusal>
    ensures { CuePainted text.now file.now (wanted cue stream) (lent scratch.old pixels.old canvas.old) (answered result) (lent scratch.new pixels.new canvas.new)
        × Exactly text.now file.now (wanted cue stream) (lent scratch.old pixels.old canvas.old) (answered result) (lent scratch.new pixels.new canvas.new)
        × Undisturbed text.now file.now (wanted cue stream) (lent scratch.old pixels.old canvas.old) (answered result) (lent scratch.new pixels.new canvas.new) }
{
    let request = Request { cue, stream };
    let c = idx::pick_cue(text, request.cue).map_err(|refusal| first_refusal(
        refusal,
        request.stream,
    ))?;
    let unit = ps::extract_spu(file, c.position as usize, request.stream, scratch)?;
    paint_found(file, &scratch[..], unit, c, pixels, canvas)
}
