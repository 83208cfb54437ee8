// Ticks, microseconds and their sums without the functions: the types, the definitions and their laws.
#![tactic(auto)]

// A delay of a unit, in ticks of 1024/90000 of a second.
#[derive(Clone, Copy, Debug, PartialEq, Eq)]
pub struct Ticks(pub u16);

// A time or a duration, in microseconds.
#[derive(Clone, Copy, Debug, PartialEq, Eq)]
pub struct Micros(pub i64);

// When a cue's picture is shown and hidden, where it is.
#[derive(Clone, Copy, Debug, PartialEq, Eq)]
pub struct Times {
    pub show: Option<Micros>,
    pub hide: Option<Micros>,
}
