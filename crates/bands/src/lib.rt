// The bands of all colour changes of a unit whose control blocks were read before, at most 32, stored as words
// (docs/FORMAT.md, 3.6, 3.7 and 4.5).
#![tactic(auto)]

ghost use Rattle.std.specs.Prelude.{◌≡◌, List, [], ◌≤◌, ◌<◌, ◌+◌, length};
ghost use Rattle.std.specs.Prelude.{Some as some};
ghost use Rattle.std.proofs.lemmas.List.Edits.{sets};
ghost use Rattle.outcome.specs.Outcome.{ok, IsOk, answered};
ghost use Rattle.grammar.specs.Bytes.{byte};
ghost use Rattle.grammar.specs.Control.{Order, Command, Block};
ghost use Rattle.control_model.specs.Chain.{change_at, order_at, commands_at, blocks_at, control_at};
ghost use Rattle.bands_model.specs.Answers.{padded};
ghost use Rattle.control_model.specs.Few.{few_at, bands_given};
ghost use Rattle.control_model.specs.Fill.{order_words, block_words, chain_words, unit_words, OrderFilled, Filled};

use chg_colcon::{MOST_BANDS, MOST_WORDS};
use control::{taken, word_at};
use control_model::{Blocks, Place};
use outcome::Refusal;

// The bands of a colour change that was read before, its size word at p, stored from place `to` on.
fn fill_change(blocks: Blocks, p: usize, words: &mut [u16], to: usize) -> Place
    requires { ((o : Order) × (change_at blocks.unit.now blocks.end p ≡ ok o) × (to + length (order_words o) ≤ length words.old)) }
    ensures { (o : Order) → change_at blocks.entry.unit.now blocks.entry.end p ≡ ok o → OrderFilled o p to words.old result words.new }
{
    let size = word_at(blocks.unit, p) as usize;
    let next = p + size;
    match chg_colcon::store_words(&blocks.unit[p + 2..next], words, to) {
        Ok(n) => Place {
            at: next,
            to: to + n,
        },
        // not met: the bands were read before
        Err(_) => Place { at: next, to },
    }
}

// The same of any command that was read before.
#[tactic(auto, using(crate::proofs::Steps::changes))]
fn fill_command(blocks: Blocks, at: usize, words: &mut [u16], to: usize) -> Place
    requires { (at < blocks.end) × ((o : Order) × (order_at blocks.unit.now blocks.end (at + 1) (byte blocks.unit.now at) ≡ ok o) × (to + length (order_words o) ≤ length words.old)) }
    ensures { (o : Order) → order_at blocks.entry.unit.now blocks.entry.end (at + 1) (byte blocks.entry.unit.now at) ≡ ok o → OrderFilled o (at + 1) to words.old result words.new }
{
    let code = blocks.unit[at];
    let p = at + 1;
    // By its number: the edit offsets_as_change holds this test, and a byte above 7 was refused before.
    if 7 <= code {
        return fill_change(blocks, p, words, to);
    }
    let size = taken(code);
    Place { at: p + size, to }
}

// The bands of a block's commands that were read before, stored from place `start` on; answers the place after them.
fn fill_commands(blocks: Blocks, from: usize, words: &mut [u16], start: usize) -> usize
    requires { ((cs : List Command) × (commands_at blocks.unit.now blocks.end from ≡ ok cs) × (start + length (block_words cs) ≤ length words.old)) }
    ensures { (cs : List Command) → commands_at blocks.entry.unit.now blocks.entry.end from ≡ ok cs → Filled (block_words cs) start words.old result words.new }
{
    let mut at = from;
    let mut to = start;
    // It goes on by what was read: no index is counted. `control::read_commands` tells where this stores: they share the walk
    // alone.
    while at < blocks.end {
        if blocks.unit[at] == 255 {
            return to;
        }
        let next = fill_command(blocks, at, words, to);
        at = next.at;
        to = next.to;
    }
    to
}

// The same of a chain's blocks.
fn fill_chain(blocks: Blocks, from: usize, words: &mut [u16])
    requires { (blocks.end < 65536) × (from < 65536) × ((bs : List Block) × (blocks_at blocks.unit.now blocks.end (some from) ≡ ok bs) × (length (chain_words bs) ≤ length words.old)) }
    ensures { (bs : List Block) → blocks_at blocks.entry.unit.now blocks.entry.end (some from) ≡ ok bs → words.new ≡ sets words.old 0 (chain_words bs) }
{
    let mut pos = from;
    let mut to: usize = 0;
    // It goes on by what was read: no index is counted. `control::read_chain` shares the walk alone, as above.
    while pos + 4 <= blocks.end {
        let next = word_at(blocks.unit, pos + 2) as usize;
        to = fill_commands(blocks, pos + 4, words, to);
        if next <= pos {
            return;
        }
        pos = next;
    }
}

// The bands of a unit whose control blocks were read before, stored as words. That they were is asked here and below of the unit itself, as
// `unit_bands` asks it: a struct would be made once, and taken apart at once.
// Ruled out: bands of the last colour change alone; words past those of the bands.
fn fill_bands(unit: &[u8], words: &mut [u16])
    requires { (IsOk (control_at unit.now)) × (length (unit_words unit.now) ≤ length words.old) }
    ensures { words.new ≡ sets words.old 0 (unit_words unit.now) }
{
    let end = word_at(unit, 0) as usize;
    let from = word_at(unit, 2) as usize;
    fill_chain(Blocks { unit, end }, from, words);
}

// The words of a unit's bands, which are `count`, and 0 after them. A unit without bands is not walked again.
fn band_array(unit: &[u8], count: usize) -> [u16; 1536]
    requires { (IsOk (control_at unit.now)) × (count ≡ length (unit_words unit.now)) × (count ≤ 1536) }
    ensures { result ≡ padded (unit_words unit.now) }
{
    let mut words = [0u16; 1536];
    if 0 < count {
        fill_bands(unit, &mut words[..]);
    }
    words
}

// The bands of a unit whose control blocks were read before and whose bands take `count` words.
// Ruled out: 33 bands without entries, which take few words; bands of one colour change counted alone.
pub fn unit_bands(unit: &[u8], count: usize) -> Result<[u16; 1536], Refusal>
    requires { (IsOk (control_at unit.now)) × (count ≡ length (unit_words unit.now)) }
    ensures { answered result ≡ bands_given (few_at unit.now) }
{
    if MOST_WORDS < count {
        return Err(Refusal::ManyBands);
    }
    let words = band_array(unit, count);
    if MOST_BANDS < look::count_bands(&words[..count]) {
        return Err(Refusal::ManyBands);
    }
    Ok(words)
}
