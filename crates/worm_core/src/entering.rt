//! A walker that enters by the published table.
ghost use Rattle.std.specs.Prelude.{◌≡◌, ◌≤◌, ◌&&◌, length, IfOk, OnOk, OnErr};
ghost use Rattle.std.specs.Ordering.{is_le, is_lt};
ghost use Rattle.rdb_base.specs.Order.{key_cmp};
ghost use Rattle.meta_trie.specs.Tries.{cover};
ghost use Rattle.worm_core.specs.Events.{entered, with_walker};
ghost use Rattle.worm_core.specs.Worlds.{all_anchored};

use crate::split::Split;
use crate::walker::Walker;
use rdb_base::{Key, NoMemory, compare_bytes};
use std::alloc::{AllocError, Global};
use std::collections::BTreeMap;

/// Puts a walker on the leaf that the first so many splits give for its key, which is the answer.
pub(crate) fn enter(
    splits: &[Split],
    published: u64,
    walkers: &mut BTreeMap<u32, Walker>,
    number: u32,
    key: Key,
) -> Result<u32, NoMemory>
    requires { published ≤ length splits.now }
    ensures leaf { IfOk result (λ leaf. leaf ≡ (entered (all_anchored splits.now) published key).leaf) }
    ensures walker { OnOk result (walkers.new.entries
        ≡ with_walker walkers.old.entries number (entered (all_anchored splits.now) published key)) }
    ensures same { OnErr result (walkers.new.entries ≡ walkers.old.entries) }
{
    let (table, _) = splits.split_at(published as usize);
    let leaf = leaf_of(table, key.as_bytes());
    let walker = Walker {
        key,
        leaf,
        rights: 0,
        adds: published,
    };
    let Ok(_) = walkers.insert(number, walker) else {
        return Err(AllocError);
    };
    Ok(leaf)
}

/// The leaf of the greatest anchor that is not above a key.
fn leaf_of(table: &[Split], key: &[u8]) -> u32
    ensures { result ≡ cover (all_anchored table.now) key.now }
{
    let mut anchor: &[u8] = &[];
    let mut leaf = 0;
    'splits: for split in table {
        let next = split.anchor.as_bytes();
        if is_better(key, anchor, next) {
            anchor = next;
            leaf = split.leaf;
        }
    }
    leaf
}

/// Whether the next anchor is not above the key, and above the best one so far.
fn is_better(key: &[u8], best: &[u8], next: &[u8]) -> bool
    ensures { result ≡ is_le (key_cmp next.now key.now) && is_lt (key_cmp best.now next.now) }
{
    compare_bytes(next, key).is_le() && compare_bytes(best, next).is_lt()
}
