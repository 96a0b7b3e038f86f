//! Two runs merged into one.
ghost use Rattle.std.specs.Prelude.{◌≡◌, ◌≤◌, ◌<◌, ◌+◌, ◌++◌, vec_len, vec_capacity, IsSome};
ghost use Rattle.std.specs.VecDeque.{deque_len};
ghost use Rattle.rdb_base.specs.Levels.{over};
ghost use Rattle.memory_rows.specs.Merges.{fronts_cmp, AreRuns, TakesFirst};

use rdb_base::Pair;
use std::cmp::Ordering;
use std::collections::VecDeque;

/// Moves newer pairs over older ones to the end of a list that has room for all of them.
pub(crate) fn merge_into(newer: Vec<Pair>, older: Vec<Pair>, merged: &mut Vec<Pair>)
    requires runs { AreRuns newer.items older.items }
    requires room { vec_len merged.old + (vec_len newer + vec_len older) ≤ vec_capacity merged.old }
    ensures { merged.new.items ≡ merged.old.items ++ over newer.items older.items }
{
    let mut newer = VecDeque::from(newer);
    let mut older = VecDeque::from(older);
    'pairs: while let Some(pair) = take_first(&mut newer, &mut older) {
        merged.push_reserved(pair);
    }
}

/// Takes the first pair of two runs. Of two pairs with one key it is the newer one, and the older one is dropped.
fn take_first(newer: &mut VecDeque<Pair>, older: &mut VecDeque<Pair>) -> Option<Pair>
    requires runs { AreRuns newer.old.items older.old.items }
    ensures first { TakesFirst result newer.old.items older.old.items newer.new.items older.new.items }
    ensures runs { AreRuns newer.new.items older.new.items }
    ensures fewer { IsSome result
        → deque_len newer.new + deque_len older.new < deque_len newer.old + deque_len older.old }
{
    match order_of_fronts(newer, older) {
        Ordering::Less => newer.pop_front(),
        Ordering::Equal => {
            older.pop_front();
            newer.pop_front()
        }
        Ordering::Greater => older.pop_front(),
    }
}

/// The order of the first keys of two runs. A run that has no pair comes last.
fn order_of_fronts(newer: &VecDeque<Pair>, older: &VecDeque<Pair>) -> Ordering
    ensures { result ≡ fronts_cmp newer.now.items older.now.items }
{
    let Some(pair) = newer.front() else {
        return Ordering::Greater;
    };
    match older.front() {
        Some(other) => pair.key.cmp(&other.key),
        None => Ordering::Less,
    }
}
