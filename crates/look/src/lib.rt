// What stored colour bands give at a place of the display (docs/FORMAT.md, 4.6), and how many they are.
#![tactic(auto)]

ghost use Rattle.std.specs.Prelude.{◌≡◌, ◌≤◌, ◌<◌, ◌*◌, length, leb, ◌&&◌, IfSome, None};
ghost use Rattle.bands_model.specs.Look.{told, pick_entry, entries_look, band_look, look_words, spans_line, IsFront};
ghost use Rattle.bands_model.specs.Count.{bands_held};

use bands_model::Four;
use outcome::lesser;

// An entry that starts at the column or left of it, or what was found before it.
fn pick_entry(
    x: u16,
    column: u16,
    selectors: u16,
    alphas: u16,
    before: Option<Four>,
) -> Option<Four>
    ensures { told result ≡ pick_entry x column selectors alphas (told before) }
{
    if column <= x {
        return Some(Four { selectors, alphas });
    }
    before
}

// The last of n entries in front that starts at the column or left of it, or what was found before them.
fn look_entries(words: &[u16], n: usize, x: u16, before: Option<Four>) -> Option<Four>
    requires { 3 * n ≤ length words.now }
    ensures { told result ≡ entries_look x (told before) n words.now }
{
    let mut look = before;
    for i in 0..n {
        // by place: the edit leftmost holds the step
        let at = 3 * i;
        look = pick_entry(x, words[at], words[at + 1], words[at + 2], look);
    }
    look
}

// A stored band: its first and last line, how many entries there are, the words from these on, and those after them.
#[derive(Clone, Copy)]
struct StoredBand<'a> {
    first: u16,
    last: u16,
    count: usize,
    words: &'a [u16],
    rest: &'a [u16],
}

// The band in front of stored words, cut where they end. Any words are read; fewer than three say nothing. Three walks go from band to band by
// it and count no index; an iterator would have to state what its steps give before any of the three could say less.
fn front_band(words: &[u16]) -> Option<StoredBand<'_>>
    ensures none { result ≡ None → length words.now < 3 }
    ensures some { IfSome result (λ b. IsFront words.now b.first b.last b.count b.words.now b.rest.now) }
{
    let [first, last, count, entries @ ..] = words else {
        return None;
    };
    let n = lesser(*count as usize, entries.len() / 3);
    Some(StoredBand {
        first: *first,
        last: *last,
        count: n,
        words: entries,
        rest: &entries[3 * n..],
    })
}

fn is_between(first: u16, last: u16, y: u16) -> bool
    ensures { result ≡ (leb first y && leb y last) }
{
    (first..=last).contains(&y)
}

// The same of a band's entries, where it spans line y.
fn look_band(band: StoredBand, x: u16, y: u16, before: Option<Four>) -> Option<Four>
    requires { 3 * band.count ≤ length band.words.now }
    ensures { told result ≡ band_look x y band.entry.first band.entry.last band.entry.count (told before) band.entry.words.now }
{
    if is_between(band.first, band.last, y) {
        return look_entries(band.words, band.count, x, before);
    }
    before
}

// What stored bands give at column x of line y: of the bands on the line that have an entry at the column or left of it, the last, and of that the
// rightmost such entry. Any words are read; entries that are cut short say nothing.
// Ruled out: the first band that spans the line; an entry that starts right of the column.
pub fn chg_colcon_lookup(words: &[u16], x: u16, y: u16) -> Option<Four>
    ensures { told result ≡ look_words x y words.now }
{
    let mut look: Option<Four> = None;
    let mut left = words;
    while let Some(band) = front_band(left) {
        look = look_band(band, x, y, look);
        left = band.rest;
    }
    look
}

// Whether one of the stored bands spans line y, with entries or without. Any words are read.
// Ruled out: the first band alone; a band's entries taken for headers.
pub fn spans_line(words: &[u16], y: u16) -> bool
    ensures { result ≡ spans_line y words.now }
{
    let mut rest = words;
    while let Some(band) = front_band(rest) {
        if is_between(band.first, band.last, y) {
            return true;
        }
        rest = band.rest;
    }
    false
}

// How many bands are stored. Any words are read.
// Ruled out: a band's entries taken for headers; a band without entries left out.
pub fn count_bands(words: &[u16]) -> usize
    ensures { result ≡ bands_held words.now }
{
    let mut rest = words;
    let mut bands: usize = 0;
    while let Some(band) = front_band(rest) {
        rest = band.rest;
        bands += 1;
    }
    bands
}
