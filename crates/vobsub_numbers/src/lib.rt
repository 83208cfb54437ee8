// Numbers of records and answers put into the order of include/vobsub.h.
#![tactic(auto)]

ghost use Rattle.std.specs.Prelude.{◌≡◌};
ghost use Rattle.vobsub_numbers.specs.Numbers.{count_in, time_in, spu_numbers, idx_numbers, cue_numbers, shown_numbers, shown_times};

use clock::count_of;
use clock_model::Micros;
use control_model::Spu;
use idx_model::{CueAnswer, IdxAnswer};
use vobsub_model::Shown;

// How many microseconds there are, 0 where there is no time.
fn count_in(m: Option<Micros>) -> u64
    ensures { result ≡ count_in m }
{
    m.map_or(0, count_of)
}

// The time, 0 where there is none.
// Ruled out: another number where there is none.
pub fn time_in(m: Option<Micros>) -> i64
    ensures { result ≡ time_in m }
{
    m.map_or(0, |time| time.0)
}

// The numbers of a record, in the order of include/vobsub.h.
// Ruled out: first and last line in each other's place, or the two numbers of codes.
pub fn numbers_of(s: Spu) -> [usize; 17]
    ensures { result ≡ spu_numbers s }
{
    [
        s.x1 as usize,
        s.y1 as usize,
        s.x2 as usize,
        s.y2 as usize,
        s.palette_sel as usize,
        s.alpha as usize,
        usize::from(s.started),
        s.start_delay_raw.0 as usize,
        usize::from(s.stopped),
        s.stop_delay_raw.0 as usize,
        usize::from(s.forced_display),
        s.top_rle_off as usize,
        s.bot_rle_off as usize,
        usize::from(s.saw_chg_colcon),
        s.band_words,
        s.codes,
        s.clipped,
    ]
}

// Size, whether there is a palette (1) or none (0), and how many cues, in the order of include/vobsub.h.
// Ruled out: width and height in each other's place.
pub fn idx_numbers_of(a: IdxAnswer) -> [usize; 4]
    ensures { result ≡ idx_numbers a }
{
    [
        a.width as usize,
        a.height as usize,
        usize::from(a.has_palette),
        a.cues,
    ]
}

// Position, whether another cue follows and the time up to it, and whether there is a palette, in the order of include/vobsub.h.
pub fn cue_numbers_of(a: CueAnswer) -> [u64; 4]
    ensures { result ≡ cue_numbers a }
{
    [
        a.position as u64,
        u64::from(a.duration.is_some()),
        count_in(a.duration),
        u64::from(a.has_palette),
    ]
}

// Whether another cue follows and the time up to it, the delays, the place, the size, the number of codes and that of
// clipped ones, whether a start and a stop command stand and whether there is a hide time, in the order of
// include/vobsub.h.
// Ruled out: the place's column and line in each other's place.
pub fn shown_numbers_of(s: Shown) -> [u64; 13]
    ensures { result ≡ shown_numbers s }
{
    [
        u64::from(s.duration.is_some()),
        count_in(s.duration),
        s.start_delay.0 as u64,
        s.stop_delay.0 as u64,
        s.x1 as u64,
        s.y1 as u64,
        s.width as u64,
        s.height as u64,
        s.codes as u64,
        s.clipped as u64,
        u64::from(s.started),
        u64::from(s.stopped),
        u64::from(s.hide.is_some()),
    ]
}

// Start, show time and hide time, in the order of include/vobsub.h.
// Ruled out: the show time and the hide time in each other's place.
pub fn shown_times_of(s: Shown) -> [i64; 3]
    ensures { result ≡ shown_times s }
{
    [s.start.0, time_in(s.show), time_in(s.hide)]
}
