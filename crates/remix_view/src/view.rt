ghost use Rattle.std.specs.Prelude.{◌≡◌, ◌+◌, ◌-◌, ◌<◌, ◌≤◌, ◌^◌, ◌++◌, [], ◌∷◌, ℕ, length, slice_index};
ghost use Rattle.std.specs.Prelude.{IfOk, OnOk, OnErr};
ghost use Rattle.std.specs.List.{AllByRecursion};
ghost use Rattle.remix_view.specs.Selectors.{IsSelector, rank_in};
ghost use Rattle.remix_view.specs.Views.{ViewState, IsFormed, SelectorAt, OffsetAt, RankAt, segment_with};
ghost use Rattle.remix_view.specs.KeptSegments.{segments_kept};

use crate::limits::SEGMENT_PLACES;
use crate::segment::Segment;
use crate::segments::Segments;
use crate::selector::rank_before;
use std::alloc::{AllocError as NoMemory, Global};
use std::marker::Model;

/// The order of all versions of several runs, without their keys.
#[derive(Drop)]
pub struct View {
    runs: u8,
    pub(crate) segments: Segments,
}

impl Model for View {
    ghost use Rattle.remix_view.specs.Views.{ViewState, IsFormed};
    ghost use Rattle.remix_view.specs.KeptSegments.{segments_kept};

    ghost Value = { ViewState };

    ghost view = { λ v. record { runs = v.runs; segments = segments_kept v.segments } };

    ghost invariant = { λ v. IsFormed (record { runs = v.runs; segments = segments_kept v.segments }) };
}

impl View {
    /// A view of no segment over so many runs.
    pub fn new(alloc: Global, runs: u8) -> View
        requires { runs ≤ 8 }
        ensures { result ≡ record { runs = runs; segments = [] } }
    {
        View {
            runs,
            segments: Segments::Owned(Vec::new(alloc)),
        }
    }

    /// How many runs it orders.
    pub fn runs(&self) -> u8
        ensures count { result ≡ self.now.runs }
        ensures formed { IsFormed self.now }
    {
        self.runs
    }

    /// How many segments it has.
    pub fn segments(&self) -> u32
        ensures count { result ≡ length self.now.segments }
        ensures formed { IsFormed self.now }
    {
        self.segments.as_slice().len() as u32
    }

    /// The selector of a place.
    pub fn selector(&self, segment: u32, place: u8) -> u8
        requires segment { segment < length self.now.segments }
        requires place { place < 32 }
        ensures selector { SelectorAt self.now segment place result }
        ensures formed { IsFormed self.now }
    {
        self.segments.as_slice()[segment as usize].selectors[place as usize]
    }

    /// The place of a run at the first place of a segment.
    pub fn offset(&self, segment: u32, run: u8) -> u32
        requires segment { segment < length self.now.segments }
        requires run { run < self.now.runs }
        ensures { OffsetAt self.now segment run result }
    {
        self.segments.as_slice()[segment as usize].offsets[run as usize]
    }

    /// How many places of a segment before this one name the run.
    pub fn rank(&self, segment: u32, place: u8, run: u8) -> u8
        requires segment { segment < length self.now.segments }
        requires place { place < 32 }
        ensures { RankAt self.now segment place run result }
    {
        rank_before(
            &self.segments.as_slice()[segment as usize].selectors,
            place,
            run,
        )
    }

    /// Adds a segment: where each run stands at its first place, and its selectors.
    pub fn push(
        &mut self,
        alloc: Global,
        offsets: &[u32],
        selectors: &[u8; SEGMENT_PLACES],
    ) -> Result<(), NoMemory>
        requires offsets { length offsets.now ≡ self.old.runs }
        requires few { length self.old.segments < 2 ^ 32 - 1 }
        requires named { AllByRecursion (IsSelector self.old.runs) selectors.now }
        requires reach { (run : ℕ) → run < self.old.runs →
            slice_index offsets.now run + rank_in run selectors.now < 2 ^ 32 }
        ensures runs { self.new.runs ≡ self.old.runs }
        ensures added { OnOk result
            (self.new.segments ≡ self.old.segments ++ segment_with offsets.now selectors.now ∷ []) }
        ensures same { OnErr result (self.new ≡ self.old) }
    {
        self.segments.push(alloc, Segment::new(offsets, selectors))
    }

    /// The same view, whose segments later copies share.
    pub fn seal(self, alloc: Global) -> Result<View, NoMemory>
        ensures { IfOk result (λ view. view ≡ self) }
    {
        Ok(View {
            runs: self.runs,
            segments: self.segments.seal(alloc)?,
        })
    }

    /// An equal view. The segments of a sealed one are shared, those of others copied.
    pub fn share(&self, alloc: Global) -> Result<View, NoMemory>
        ensures { IfOk result (λ view. view ≡ self.now) }
    {
        Ok(View {
            runs: self.runs,
            segments: self.segments.share(alloc)?,
        })
    }
}
