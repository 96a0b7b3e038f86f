//! Seeks of random keys, each with the rows from there on.
ghost use Rattle.std.specs.Prelude.{◌≡◌, ◌<◌, ◌≤◌, length, map};
ghost use Rattle.remix_seek.specs.Indexes.{Indexes};

use crate::keys::{key_from, mixed};
use crate::load::Load;
use rdb_base::Steps;
use remix_seek::{Remix, RunInMemory, Runs};
use remix_view::{Spot, View, Walk};
use std::sync::ledger::Ledger;

/// How many rows are read at a time.
const TOGETHER: usize = 16;

/// A spot that was not written down yet.
const NOWHERE: Spot = Spot {
    run: 0,
    place: 0,
    old: false,
    del: false,
};

/// Seeks so often and sums up so many rows each time.
pub(crate) fn sum_of_seeks<L: Ledger>(
    load: &Load,
    runs: &[RunInMemory],
    index: &Remix,
    steps: &mut Steps<L>,
) -> u64
    requires { Indexes (map (λ run. run) runs.now) index.now.view index.now.anchors }
{
    let mut sum: u64 = 0;
    for time in 0..load.times {
        let key = key_from(mixed(time as u64));
        let Ok((segment, place)) = index.seek(runs, &key, steps) else {
            return sum;
        };
        let walk = Walk::at(segment, place);
        sum = sum.wrapping_add(sum_of_rows(walk, load.rows, runs, index, steps));
    }
    sum
}

/// The sum of the next rows of a walk.
///
/// A view holds no key, so it tells where the next rows stand before any is read. They are read many at a time, since
/// the machine then waits for the bytes of all of them at once.
fn sum_of_rows<L: Ledger>(
    from: Walk,
    rows: u32,
    runs: &[RunInMemory],
    index: &Remix,
    steps: &mut Steps<L>,
) -> u64 {
    let mut walk = from;
    let mut left = rows as usize;
    let mut sum: u64 = 0;
    'groups: while left > 0 {
        let wanted = left.min(TOGETHER);
        let mut spots = [NOWHERE; TOGETHER];
        let found = next_rows(&mut walk, &index.view, wanted, &mut spots);
        let (front, _) = spots.split_at(found);
        sum = sum.wrapping_add(sum_of_spots(front, runs, steps));
        if found < wanted {
            return sum;
        }
        left -= wanted;
    }
    sum
}

/// Writes down where the next rows stand, as many as are wanted, and tells how many there are.
fn next_rows(walk: &mut Walk, view: &View, wanted: usize, spots: &mut [Spot; TOGETHER]) -> usize
    requires { wanted ≤ 16 }
    ensures { result ≤ wanted }
{
    let mut found = 0;
    'rows: while found < wanted {
        let Some(spot) = walk.next(view) else {
            return found;
        };
        if !spot.old && !spot.del {
            spots[found] = spot;
            found += 1;
        }
    }
    found
}

/// The sum of the rows that stand there.
fn sum_of_spots<L: Ledger>(spots: &[Spot], runs: &[RunInMemory], steps: &mut Steps<L>) -> u64 {
    let mut sum: u64 = 0;
    for spot in spots {
        sum = sum.wrapping_add(sum_of_row(*spot, runs, steps));
    }
    sum
}

/// A row, lent: the last byte of its key, the first of its value, and their lengths.
fn sum_of_row<L: Ledger>(spot: Spot, runs: &[RunInMemory], steps: &mut Steps<L>) -> u64 {
    match runs.get(spot.run as usize) {
        Some(run) => {
            if spot.place >= run.len() {
                return 0;
            }
            let key = run.lent_key(spot.place, steps);
            let value = run.lent_value(spot.place).unwrap_or(&[]);
            let ends = byte_of(key.last()).wrapping_add(byte_of(value.first()));
            ends.wrapping_add(key.len() as u64)
                .wrapping_add(value.len() as u64)
        }
        None => 0,
    }
}

fn byte_of(byte: Option<&u8>) -> u64 {
    match byte {
        Some(byte) => *byte as u64,
        None => 0,
    }
}
