// A whole unit without its functions: its answers, its definitions, their laws and the claim.
#![tactic(auto)]

use control_model::Spu;
use rle_model::Span;

// The record of a unit with its bands in it.
#[derive(Clone, Copy, Debug, PartialEq, Eq)]
pub struct Record {
    pub spu: Spu,
    // The words of the bands, as many as `band_words`, and 0 after them: an array beside its length, as the record has
    // it (docs/FORMAT.md, 4.5).
    pub bands: [u16; 1536],
}

// The size of a picture, and where its fields stand in the unit.
#[derive(Clone, Copy, Debug, PartialEq, Eq)]
pub struct Layout {
    pub width: usize,
    pub height: usize,
    // The unit's end.
    pub end: usize,
    pub top: Span,
    // There may be no bottom field.
    pub bottom: Option<Span>,
}
