//! The order of all versions of several sorted runs, as numbers alone: which run comes next, and where it stands.
//!
//! Stands for   a list of segments of 32 places, and the spots that their selectors name (`specs/Views.antt`,
//!              `ViewState`)
//! Promises     a walk gives the spots in order, old versions too, and passes fillers alone (`specs/Spots.antt`,
//!              `spots_from`); it compares no key, since a view holds none
//! Goes in      segments: where each run stands at the first place, and a selector for each place
//! Comes out    selectors, offsets, ranks; spots, one by one
//! Stands on    nothing
//! Begin at     src/view.rt, `View`; src/walk.rt, `Walk::next`
//! Leaves open  that memory is there
//! Bytes        docs/formats.md, "Selectors and segments"
#![tactic(auto)]

pub mod limits;
mod segment;
mod segments;
pub mod selector;
mod spot;
mod view;
mod walk;

pub use limits::{RUNS_MAX, SEGMENT_PLACES};
pub use segment::Segment;
pub use selector::FILLER;
pub use spot::Spot;
pub use view::View;
pub use walk::Walk;

#[cfg(test)]
mod tests;
