//! Pairs that move from one list to another.
ghost use Rattle.std.specs.Prelude.{◌≡◌, ◌≤◌, ◌+◌, ◌-◌, [], length, take, drop, vec_len, vec_capacity};

use rdb_base::Pair;

/// The pairs from a place on move to another list, which was empty and has room for them.
pub(crate) fn move_from(from: &mut Vec<Pair>, at: usize, to: &mut Vec<Pair>)
    requires at { at ≤ vec_len from.old }
    requires empty { to.old.items ≡ [] }
    requires room { vec_len from.old - at ≤ vec_capacity to.old }
    ensures from { from.new.items ≡ take at from.old.items }
    ensures from_room { vec_capacity from.new ≡ vec_capacity from.old }
    ensures to { to.new.items ≡ drop at from.old.items }
    ensures to_room { vec_capacity to.new ≡ vec_capacity to.old }
{
    'pairs: while from.len() > at {
        let Some(pair) = from.pop() else {
            return;
        };
        to.push_reserved(pair);
    }
    to.reverse();
}
