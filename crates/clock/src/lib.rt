// Times of a title: delays of a unit count ticks, times of an index text count microseconds, and one conversion joins
// the two (docs/FORMAT.md, 6.7).
#![tactic(auto)]

ghost use Rattle.std.specs.Prelude.{◌≡◌, pos, ◌+ℤ◌};
ghost use Rattle.grammar.specs.Times.{in_micros, show_time};
ghost use Rattle.clock_model.specs.Sums.{checked};
ghost use Rattle.outcome.specs.Outcome.{answered};
ghost use Rattle.clock_model.specs.Answers.{micros_count, delay_in, instant_if, times_answer};

use clock_model::{Micros, Ticks, Times};
use outcome::Refusal;

// A sum, where it stays in signed 64 bits.
// Ruled out: a sum that leaves at either end and comes back wrapped.
pub fn plus(a: i64, b: i64) -> Option<i64>
    ensures { result ≡ checked (a +ℤ b) }
{
    a.checked_add(b)
}

// Ticks in microseconds, rounded down: the one way from a unit's clock to that of the index text.
// Ruled out: ticks for microseconds; a quotient taken before the product.
// No From: both types stand in clock_model, and README names this function.
pub fn converted(t: Ticks) -> Micros
    ensures { result.0 ≡ pos (in_micros t.0) }
{
    let n = t.0 as u64 * 102400 / 9;
    Micros(n as i64)
}

// How many microseconds there are, for where a number that is not below 0 is written.
// Ruled out: a number below 0 wrapped.
pub fn count_of(m: Micros) -> u64
    ensures { result ≡ micros_count m.0 }
{
    u64::try_from(m.0).unwrap_or(0)
}

// A cue's start and a delay after it, where there is one.
fn later(start: Micros, delay: Option<Ticks>) -> Result<Option<Micros>, Refusal>
    ensures { answered result ≡ instant_if (show_time start.0 (delay_in delay)) }
{
    let Some(ticks) = delay else {
        return Ok(None);
    };
    let time = plus(start.0, converted(ticks).0).ok_or(Refusal::LongInstant)?;
    Ok(Some(Micros(time)))
}

// When the picture of a cue is shown and hidden, by the delays of its unit's first start and last stop: without a start
// there is neither time, without a stop it is not hidden.
// Ruled out: a hide time of what is never shown; the delay of the start for that of the stop.
pub fn times_of(
    start: Micros,
    starts: Option<Ticks>,
    stops: Option<Ticks>,
) -> Result<Times, Refusal>
    ensures { answered result ≡ times_answer start.0 (delay_in starts) (delay_in stops) }
{
    let show = later(start, starts)?;
    let hide = later(start, starts.and(stops))?;
    Ok(Times { show, hide })
}
