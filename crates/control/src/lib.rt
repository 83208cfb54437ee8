// The control blocks of a unit: a chain of blocks whose commands say when, where and in which colours its picture is shown
// (docs/FORMAT.md, section 3). One record holds what they say.
#![tactic(auto)]

ghost use Rattle.std.specs.Prelude.{◌≡◌, ℕ, ◌≤◌, ◌<◌, ◌+◌, ◌*◌, ◌/◌, ◌%◌, ◌^◌, length, List};
ghost use Rattle.outcome.specs.Outcome.{answered};
ghost use Rattle.control.specs.CommandBytes.{byte_of};
ghost use Rattle.grammar.specs.Bytes.{byte, word, nibbles};
ghost use Rattle.std.specs.Prelude.{Some as some};
ghost use Rattle.grammar.specs.Bands.{Band, band_words};
ghost use Rattle.grammar.specs.Control.{forced_start, start, stop, selectors, alphas, area, offsets, colours, size_of};
ghost use Rattle.grammar.specs.Record.{Told};
ghost use Rattle.control_model.specs.Fold.{untold, tell};
ghost use Rattle.control_model.specs.Chain.{area_at, plain_at, change_at, order_at, commands_at, blocks_at};
ghost use Rattle.control_model.specs.Answers.{spu_of, order_answer, commands_answer, chain_answer, control_answer};
ghost use Rattle.rle_model.specs.Answers.{nothing};

use clock_model::Ticks;
use control_model::{AfterCommand, Blocks, Spu};
use outcome::{Refusal, word};

// The word at place i.
// Ruled out: the low byte first; the byte at i alone.
pub fn word_at(unit: &[u8], i: usize) -> u16
    requires { i + 2 ≤ length unit.now }
    ensures { result ≡ word unit.now i }
{
    word(unit[i], unit[i + 1])
}

// The three nibbles that start with byte q, and the three that end with the byte after it: two ways to cut a word, a line each.
fn twelve_from(unit: &[u8], q: usize) -> u16
    requires { q + 2 ≤ length unit.now }
    ensures { result ≡ nibbles unit.now (2 * q) 3 }
{
    word_at(unit, q) / 16
}

fn twelve_to(unit: &[u8], q: usize) -> u16
    requires { q + 2 ≤ length unit.now }
    ensures { result ≡ nibbles unit.now (2 * q + 1) 3 }
{
    word_at(unit, q) % 4096
}

// What a command tells of the record, a function each: they set other fields, and promise other commands.
// A start in a block with this delay: the first counts.
fn with_start(spu: Spu, delay: u16) -> Spu
    ensures { (t : Told) → spu ≡ spu_of t nothing → result ≡ spu_of (tell delay start t) nothing }
{
    if spu.started {
        return spu;
    }
    Spu {
        started: true,
        start_delay_raw: Ticks(delay),
        ..spu
    }
}

fn with_forced_start(spu: Spu, delay: u16) -> Spu
    ensures { (t : Told) → spu ≡ spu_of t nothing → result ≡ spu_of (tell delay forced_start t) nothing }
{
    Spu {
        forced_display: true,
        ..with_start(spu, delay)
    }
}

// A stop in a block with this delay: the last counts.
fn with_stop(spu: Spu, delay: u16) -> Spu
    ensures { (t : Told) → spu ≡ spu_of t nothing → result ≡ spu_of (tell delay stop t) nothing }
{
    Spu {
        stopped: true,
        stop_delay_raw: Ticks(delay),
        ..spu
    }
}

fn with_selectors(spu: Spu, four: u16) -> Spu
    ensures { (t : Told) (d : ℕ) → spu ≡ spu_of t nothing → result ≡ spu_of (tell d (selectors four) t) nothing }
{
    Spu {
        palette_sel: four,
        ..spu
    }
}

fn with_alphas(spu: Spu, four: u16) -> Spu
    ensures { (t : Told) (d : ℕ) → spu ≡ spu_of t nothing → result ≡ spu_of (tell d (alphas four) t) nothing }
{
    Spu { alpha: four, ..spu }
}

fn with_area(spu: Spu, x1: u16, x2: u16, y1: u16, y2: u16) -> Spu
    ensures { (t : Told) (d : ℕ) → spu ≡ spu_of t nothing → result ≡ spu_of (tell d (area x1 x2 y1 y2) t) nothing }
{
    Spu {
        x1,
        x2,
        y1,
        y2,
        ..spu
    }
}

fn with_offsets(spu: Spu, top: u16, bottom: u16) -> Spu
    ensures { (t : Told) (d : ℕ) → spu ≡ spu_of t nothing → result ≡ spu_of (tell d (offsets top bottom) t) nothing }
{
    Spu {
        top_rle_off: top,
        bot_rle_off: bottom,
        ..spu
    }
}

// A colour change whose bands take so many words.
fn with_bands(spu: Spu, words: usize) -> Spu
    requires { spu.band_words + words < 2 ^ 64 }
    ensures { (t : Told) (d n : ℕ) (bs : List Band) → words ≡ length (band_words bs) → spu ≡ spu_of t nothing → result ≡ spu_of (tell d (colours n bs) t) nothing }
{
    Spu {
        saw_chg_colcon: true,
        band_words: spu.band_words + words,
        ..spu
    }
}

// The area whose six bytes stand at p.
fn with_area_at(unit: &[u8], p: usize, spu: Spu) -> Spu
    requires { p + 6 ≤ length unit.now }
    ensures { (t : Told) (d : ℕ) → spu ≡ spu_of t nothing → result ≡ spu_of (tell d (area_at unit.now p) t) nothing }
{
    let x1 = twelve_from(unit, p);
    let x2 = twelve_to(unit, p + 1);
    let y1 = twelve_from(unit, p + 3);
    let y2 = twelve_to(unit, p + 4);
    with_area(spu, x1, x2, y1, y2)
}

// What a command tells, in the order of the commands' bytes.
#[derive(Clone, Copy, Debug, PartialEq, Eq)]
enum CommandKind {
    ForcedStart,
    Start,
    Stop,
    Selectors,
    Alphas,
    Area,
    Offsets,
    Colours,
}

// The command that a byte stands for.
// Ruled out: another command's; a command for a byte that stands for none.
impl TryFrom<u8> for CommandKind {
    ghost use Rattle.std.specs.Prelude.{◌≡◌, ◌<◌, IfOk, IfErr};
    ghost use Rattle.outcome.specs.declared.Refusal.TheVariants.{UnknownCommand};
    ghost use Rattle.control.specs.CommandBytes.{byte_of};

    type Error = Refusal;

    ghost try_from_gives = { λ code r. IfOk r (λ k. byte_of k ≡ code) × IfErr r (λ e. (e ≡ UnknownCommand) × (7 < code)) };

    fn try_from(code: u8) -> Result<CommandKind, Refusal> {
        match code {
            0 => Ok(CommandKind::ForcedStart),
            1 => Ok(CommandKind::Start),
            2 => Ok(CommandKind::Stop),
            3 => Ok(CommandKind::Selectors),
            4 => Ok(CommandKind::Alphas),
            5 => Ok(CommandKind::Area),
            6 => Ok(CommandKind::Offsets),
            7 => Ok(CommandKind::Colours),
            _ => Err(Refusal::UnknownCommand),
        }
    }
}

// How many bytes of parameters a command other than a colour change has, by its byte: `bands` asks it of bytes that were read before.
// Ruled out: the command's own byte counted; the size of a word for an area.
pub fn taken(code: u8) -> usize
    requires { code < 7 }
    ensures { (u : List ℕ) (p : ℕ) → result ≡ size_of (plain_at u p code) }
{
    match code {
        0..=2 => 0,
        3 | 4 => 2,
        5 => 6,
        _ => 4,
    }
}

// The record after a command other than a colour change, its parameters at p.
fn with_order(unit: &[u8], p: usize, kind: CommandKind, delay: u16, spu: Spu) -> Spu
    requires { (byte_of kind < 7) × (p + size_of (plain_at unit.now p (byte_of kind)) ≤ length unit.now) }
    ensures { (t : Told) → spu ≡ spu_of t nothing → result ≡ spu_of (tell delay (plain_at unit.now p (byte_of kind)) t) nothing }
{
    match kind {
        CommandKind::ForcedStart => with_forced_start(spu, delay),
        CommandKind::Start => with_start(spu, delay),
        CommandKind::Stop => with_stop(spu, delay),
        CommandKind::Selectors => with_selectors(spu, word_at(unit, p)),
        CommandKind::Alphas => with_alphas(spu, word_at(unit, p)),
        CommandKind::Area => with_area_at(unit, p, spu),
        CommandKind::Offsets => with_offsets(spu, word_at(unit, p), word_at(unit, p + 2)),
        // not met: `read_change` reads it
        CommandKind::Colours => spu,
    }
}

// A colour change, its size word at p.
fn read_change(blocks: Blocks, p: usize, spu: Spu) -> Result<AfterCommand, Refusal>
    requires { (p ≤ blocks.end) × (spu.band_words + length blocks.unit.now < 2 ^ 64) }
    ensures { (t : Told) (d : ℕ) → spu ≡ spu_of t nothing → answered result ≡ order_answer d p t (change_at blocks.entry.unit.now blocks.entry.end p) }
{
    if blocks.end - p < 2 {
        return Err(Refusal::CutParameters);
    }
    let size = word_at(blocks.unit, p) as usize;
    if size < 2 {
        return Err(Refusal::SmallSize);
    }
    if blocks.end - p < size {
        return Err(Refusal::CutParameters);
    }
    let next = p + size;
    let words = chg_colcon::count_words(&blocks.unit[p + 2..next])?;
    Ok(AfterCommand {
        at: next,
        spu: with_bands(spu, words),
    })
}

// A command that stands before `end`, in a block with this delay.
fn read_command(blocks: Blocks, at: usize, delay: u16, spu: Spu) -> Result<AfterCommand, Refusal>
    requires { (at < blocks.end) × (spu.band_words + length blocks.unit.now < 2 ^ 64) }
    ensures { (t : Told) → spu ≡ spu_of t nothing → answered result ≡ order_answer delay (at + 1) t (order_at blocks.entry.unit.now blocks.entry.end (at + 1) (byte blocks.entry.unit.now at)) }
{
    let code = blocks.unit[at];
    let kind = CommandKind::try_from(code)?;
    let p = at + 1;
    match kind {
        CommandKind::Colours => read_change(blocks, p, spu),
        _ => {
            let size = taken(code);
            if blocks.end - p < size {
                return Err(Refusal::CutParameters);
            }
            Ok(AfterCommand {
                at: p + size,
                spu: with_order(blocks.unit, p, kind, delay, spu),
            })
        }
    }
}

// The commands of a block with this delay, from `from` on.
fn read_commands(blocks: Blocks, from: usize, delay: u16, spu: Spu) -> Result<Spu, Refusal>
    requires { ((t : Told) × (spu ≡ spu_of t nothing)) × (from ≤ blocks.end) × (spu.band_words + blocks.end + length blocks.unit.now < 2 ^ 64) }
    ensures { (t : Told) → spu ≡ spu_of t nothing → answered result ≡ commands_answer delay t (commands_at blocks.entry.unit.now blocks.entry.end from) }
{
    let mut at = from;
    let mut told = spu;
    // It goes on by what was read: no index is counted. `bands::fill_commands` stores where this tells: the two share the walk
    // alone, and a closure for the step would have contracts as long as both.
    while at < blocks.end {
        if blocks.unit[at] == 255 {
            return Ok(told);
        }
        let after = read_command(blocks, at, delay, told)?;
        at = after.at;
        told = after.spu;
    }
    Ok(told)
}

// The chain of blocks from `from` on.
fn read_chain(blocks: Blocks, from: usize) -> Result<Spu, Refusal>
    requires { (blocks.end < 65536) × (from < 65536) × (length blocks.unit.now < 2 ^ 63) }
    ensures { answered result ≡ chain_answer untold (blocks_at blocks.entry.unit.now blocks.entry.end (some from)) }
{
    // Written out: what each value is before the first command is the format's (FORMAT 3.6), and no default of a type.
    let mut told = Spu {
        x1: 0,
        y1: 0,
        x2: 0,
        y2: 0,
        palette_sel: 0,
        alpha: 0,
        started: false,
        start_delay_raw: Ticks(0),
        stopped: false,
        stop_delay_raw: Ticks(0),
        forced_display: false,
        top_rle_off: 0,
        bot_rle_off: 0,
        saw_chg_colcon: false,
        band_words: 0,
        codes: 0,
        clipped: 0,
    };
    let mut pos = from;
    // It goes on by what was read: no index is counted. `bands::fill_chain` shares the walk alone, as above.
    while pos + 4 <= blocks.end {
        let delay = word_at(blocks.unit, pos);
        let next = word_at(blocks.unit, pos + 2) as usize;
        told = read_commands(blocks, pos + 4, delay, told)?;
        if next <= pos {
            return Ok(told);
        }
        pos = next;
    }
    Ok(told)
}

// What the control blocks of a unit tell: its record, the codes of its fields not yet counted.
// Ruled out: selectors reset by a block; the last start or the first stop; a chain followed past a block that names no later place.
pub fn parse_control(unit: &[u8]) -> Result<Spu, Refusal>
    ensures { answered result ≡ control_answer unit.now }
{
    if unit.len() < 4 {
        return Err(Refusal::NoHead);
    }
    let end = word_at(unit, 0) as usize;
    let from = word_at(unit, 2) as usize;
    if from < 4 {
        return Err(Refusal::BadHead);
    }
    if end < from {
        return Err(Refusal::BadHead);
    }
    if unit.len() < end {
        return Err(Refusal::BadHead);
    }
    let spu = read_chain(Blocks { unit, end }, from)?;
    if spu.x2 < spu.x1 {
        return Err(Refusal::NoArea);
    }
    if spu.y2 < spu.y1 {
        return Err(Refusal::NoArea);
    }
    Ok(spu)
}
