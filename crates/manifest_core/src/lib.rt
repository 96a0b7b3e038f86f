//! Two strips that stand for one edition: which tables count, and where the log begins.
//!
//! Stands for   the edition of the greater number among the strips' last frames, or the initial one
//!              (`specs/Manifests.antt`, `manifest_of`)
//! Promises     after `commit` succeeds the strips and each crash image of them stand for its edition; within `settle`,
//!              and within a `commit` with nothing in doubt, images of any two moments stand for an edition from
//!              before or for the new one
//! Goes in      two strips, and editions
//! Comes out    an edition; a fault of a strip, as its unit; why strips are refused
//! Stands on    rdb_base, fault_count, disk_model, frame_journal, edition_code
//! Begin at     src/committing.rt, `Manifest::commit`
//! Leaves open  that a call of a strip succeeds
//! Bytes        docs/formats.md, "Editions"
#![tactic(auto)]

mod commit_error;
mod committing;
mod limits;
mod manifest;
mod manifest_error;
mod reading;
#[cfg(test)]
mod tests;
mod told;

pub use commit_error::CommitError;
pub use edition_code::{Edition, EditionPart, IndexField, RunField};
pub use limits::STRIP_FULL;
pub use manifest::Manifest;
pub use manifest_error::ManifestError;
