//! What the bits of a selector mean: the low six name the run, and the two above them are marks.
ghost use Rattle.std.specs.Prelude.{◌≡◌, ◌==◌, ◌<◌, ◌≤◌, length, take, map};
ghost use Rattle.std.specs.Simd.Lanes.{mask_l};
ghost use Rattle.remix_view.specs.Selectors.{run_in, del_in, old_in, is_filler, rank_in};

use crate::limits::SEGMENT_PLACES;
use std::simd::prelude::*;

/// The selector of a filler, a place that holds no version. An index has fillers only at the end of a segment.
pub const FILLER: u8 = 0x3F;

/// The mark of a deletion. The bits below it name the run.
pub const DELETION: u8 = 0x40;

/// The mark of an older version of the key at the place before.
pub const OLD: u8 = 0x80;

const _: () = prove!(FILLER == 63);

const _: () = prove!(DELETION == 64);

const _: () = prove!(OLD == 128);

/// Whether no version takes the place.
pub fn is_filler(selector: u8) -> bool
    ensures { result ≡ is_filler selector }
{
    selector == FILLER
}

/// The run that it names: 0 is the newest.
pub fn run_in(selector: u8) -> u8
    ensures { result ≡ run_in selector }
{
    selector % DELETION
}

/// Whether the change is a deletion.
pub fn is_deletion(selector: u8) -> bool
    ensures { result ≡ del_in selector }
{
    selector % OLD >= DELETION
}

/// Whether the key at the place before has a newer version.
pub fn is_old(selector: u8) -> bool
    ensures { result ≡ old_in selector }
{
    selector >= OLD
}

/// How many of these selectors, at most those of a segment, name the run.
pub fn rank(selectors: &[u8], run: u8) -> u8
    requires { length selectors.now ≤ 32 }
    ensures { result ≡ rank_in run selectors.now }
{
    selectors
        .iter()
        .filter(|selector| run_in(**selector) == run)
        .count() as u8
}

/// How many selectors of a segment before a place name the run. All 32 are compared at once.
pub(crate) fn rank_before(selectors: &[u8; SEGMENT_PLACES], place: u8, run: u8) -> u8
    requires { place < 32 }
    ensures { result ≡ rank_in run (take place selectors.now) }
{
    let named = named_by(u8x32::from_array(*selectors), run);
    (named % (1 << place)).count_ones() as u8
}

/// A bit for each selector, the lowest for the first: whether it names the run.
fn named_by(selectors: u8x32, run: u8) -> u64
    requires { length selectors ≡ 32 }
    ensures { result ≡ mask_l (map (λ selector. run_in selector == run) selectors) }
{
    let runs = selectors & u8x32::splat(FILLER);
    runs.simd_eq(u8x32::splat(run)).to_bitmask()
}
