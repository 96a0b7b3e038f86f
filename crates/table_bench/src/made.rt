//! The run whose table is made: keys of 16 bytes that rise, spread over all of them.
ghost use Rattle.std.specs.Prelude.{◌≡◌, ◌≤◌, true, length, IfSome};
ghost use Rattle.rdb_base.specs.Runs.{AreBelow};

use crate::load::Load;
use rdb_base::{Change, Key, Pair, SortedRun, Value, compare_bytes};
use std::alloc::Global;

/// The bytes of a key.
const KEY_LEN: usize = 16;

/// The run of a load, which has a pair at least. None if there is to be none, or it runs out of memory.
pub(crate) fn made_run(alloc: Global, load: &Load) -> Option<SortedRun>
    ensures { IfSome result (λ run. 1 ≤ length run) }
{
    let gap = u64::MAX.checked_div(load.pairs as u64)?;
    let mut run = SortedRun::new(alloc);
    for place in 0..load.pairs {
        let number = gap.wrapping_mul(place as u64);
        let pair = made_pair(alloc, number, place, load.value_len)?;
        if !is_above(&run, pair.key.as_bytes()) {
            return None;
        }
        run.push(pair).ok()?;
    }
    if run.len() == 0 {
        return None;
    }
    Some(run)
}

/// Whether a key is above all of a run.
fn is_above(run: &SortedRun, key: &[u8]) -> bool
    ensures { result ≡ true → AreBelow run.now key.now }
{
    let pairs = run.as_slice();
    let count = pairs.len();
    if count == 0 {
        return true;
    }
    let last = &pairs[count - 1];
    compare_bytes(last.key.as_bytes(), key).is_lt()
}

/// The bytes of a number, the first of the highest place, and again; and a value of one byte many times.
fn made_pair(alloc: Global, number: u64, place: u32, value_len: u16) -> Option<Pair> {
    let bytes = number.to_be_bytes();
    let mut key = [0; KEY_LEN];
    let (front, back) = key.split_at_mut(8);
    front.copy_from_slice(&bytes);
    back.copy_from_slice(&bytes);
    let filled = Vec::from_elem(alloc, (place % 256) as u8, value_len as usize).ok()?;
    Some(Pair {
        key: Key::try_new(alloc, &key).ok()?,
        change: Change::Put(Value::try_new(alloc, filled.as_slice()).ok()?),
    })
}

/// A number that looks random, of another.
pub(crate) fn mixed(number: u64) -> u64 {
    let once = (number ^ (number >> 30)).wrapping_mul(0xBF58_476D_1CE4_E5B9);
    let twice = (once ^ (once >> 27)).wrapping_mul(0x94D0_49BB_1331_11EB);
    twice ^ (twice >> 31)
}
