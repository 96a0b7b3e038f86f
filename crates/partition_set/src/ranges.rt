//! The bounds of partitions: read at a place, and searched by halves.
ghost use Rattle.std.specs.Prelude.{◌≡◌, ◌+◌, ◌-◌, ◌<◌, ◌≤◌, length};
ghost use Rattle.rdb_base.specs.Halvings.{IsTurn};
ghost use Rattle.partition_set.specs.Partitions.{IsSet};
ghost use Rattle.partition_set.specs.Bounds.{LendsBound, low_at, passes_at};

use crate::partition::Partition;
use rdb_base::compare_bytes;
use remix_seek::Runs;

/// The low bound of the partition at a place, where there is one.
pub(crate) fn bound_at<T>(parts: &[Partition<T>], index: usize) -> Option<&[u8]>
    ensures { LendsBound (low_at parts.now index) result }
{
    if index < parts.len() {
        let part = &parts[index];
        Some(part.low.as_slice())
    } else {
        None
    }
}

/// How many low bounds are not above the key. The first never is.
pub(crate) fn bounds_passed<T: Runs>(parts: &[Partition<T>], key: &[u8]) -> usize
    requires { IsSet T.run parts.now }
    ensures turn { IsTurn (passes_at parts.now key.now) (length parts.now) result }
    ensures some { 0 < result }
{
    let mut low: usize = 1;
    let mut high = parts.len();
    'halves: while low < high {
        let middle = low + (high - low) / 2;
        let part = &parts[middle];
        if compare_bytes(part.low.as_slice(), key).is_gt() {
            high = middle;
        } else {
            low = middle + 1;
        }
    }
    low
}
