//! All that an anchor needs, made before anything is changed. Only room is taken.
ghost use Rattle.std.specs.Prelude.{◌≡◌, ◌≤◌, ◌<◌, ◌-◌, ℕ, None, Some, true, is_some, length, map, take};
ghost use Rattle.std.specs.Prelude.{IfOk, OnOk, OnErr, IsOk, IsTrue, ◌↔◌, vec_len, vec_capacity};
ghost use Rattle.meta_trie.specs.Growths.{fronts_of};
ghost use Rattle.meta_trie.specs.Leaves.{all_of, rest_of};
ghost use Rattle.meta_trie.specs.Nodes.{Best};
ghost use Rattle.meta_trie.specs.Readiness.{IsTrie, IsReady, MayBeReady, anchor_of};
ghost use Rattle.meta_trie.specs.Tables.{node_at, count_of, room_of};
ghost use Rattle.meta_trie.specs.Tries.{Anchored, RoomAnswer, deepest};

use crate::finding::{holder, longest};
use crate::leaf_entry::LeafEntry;
use crate::limits::NODES_MAX;
use crate::ready::Ready;
use crate::table::Table;
use crate::trie_error::TrieError;
use rdb_base::{NoMemory, Steps};
use std::alloc::Global;
use std::marker::Brand;
use std::sync::ledger::{Blank, Ledger};

/// Makes all that an anchor needs, where that is not there yet. Refused, what was made for another anchor stays.
pub(crate) fn make_ready(
    alloc: Global,
    leaves: &mut Vec<LeafEntry>,
    table: &mut Table,
    ready: &mut Option<Ready>,
    anchor: &[u8],
) -> Result<(), TrieError>
    requires trie { IsTrie leaves.old.items table.old }
    requires ready { MayBeReady leaves.old.items (vec_len leaves.old < vec_capacity leaves.old) table.old ready.old }
    ensures answer { RoomAnswer result (rest_of (all_of leaves.old.items)) anchor.now }
    ensures leaves { leaves.new.items ≡ leaves.old.items }
    ensures trie { IsTrie leaves.new.items table.new }
    ensures ready { MayBeReady leaves.new.items (vec_len leaves.new < vec_capacity leaves.new) table.new ready.new }
    ensures anchor { OnOk result (anchor_of ready.new ≡ Some anchor.now) }
    ensures refused { OnErr result (anchor_of ready.new ≡ anchor_of ready.old) }
    ensures again { anchor_of ready.old ≡ Some anchor.now → IsOk result }
{
    if is_for(ready, anchor) {
        return Ok(());
    }
    match prepare(alloc, leaves, table, anchor) {
        Ok(made) => {
            *ready = Some(made);
            Ok(())
        }
        Err(error) => Err(error),
    }
}

/// Whether this anchor is prepared.
fn is_for(ready: &Option<Ready>, anchor: &[u8]) -> bool
    ensures { IsTrue result ↔ (anchor_of ready.now ≡ Some anchor.now) }
{
    match ready {
        None => false,
        Some(ready) => ready.anchor.as_slice() == anchor,
    }
}

/// All that an anchor needs: room for its entry and its nodes, the prefixes that get nodes, and the anchor itself.
fn prepare(
    alloc: Global,
    leaves: &mut Vec<LeafEntry>,
    table: &mut Table,
    anchor: &[u8],
) -> Result<Ready, TrieError>
    requires trie { IsTrie leaves.old.items table.old }
    ensures answer { RoomAnswer result (rest_of (all_of leaves.old.items)) anchor.now }
    ensures anchor { IfOk result (λ ready. ready.anchor.items ≡ anchor.now) }
    ensures ready { IfOk result (λ ready. IsReady leaves.old.items table.new ready) }
    ensures room { OnOk result (vec_len leaves.new < vec_capacity leaves.new) }
    ensures leaves { leaves.new.items ≡ leaves.old.items }
    ensures leaves_room { vec_capacity leaves.old ≤ vec_capacity leaves.new }
    ensures table { (p : _) → node_at table.new p ≡ node_at table.old p }
    ensures table_room { room_of table.old ≤ room_of table.new }
    ensures count { count_of table.new ≡ count_of table.old }
{
    let site = survey::<Brand>(leaves.as_slice(), table, anchor, Blank::new(1));
    let missing = anchor.len() - site.len;
    let nodes = table.len();
    if nodes + missing > NODES_MAX {
        let nodes = nodes as u32;
        return Err(TrieError::TrieFull { nodes });
    }
    table.reserve(missing)?;
    leaves.reserve(1)?;
    Ok(copies_at(alloc, anchor, site)?)
}

/// Where a new anchor stands: how long its longest prefix with a node is, and the place of the greatest anchor below
/// it.
#[derive(Clone, Copy)]
struct Site {
    len: usize,
    previous: usize,
}

fn survey<L: Ledger>(leaves: &[LeafEntry], table: &Table, anchor: &[u8], blank: Blank) -> Site
    requires name { blank.name ≡ L.name }
    requires parts { blank.parts ≡ L.parts }
    requires some { 0 < blank.parts }
    requires trie { IsTrie leaves.now table.now }
    ensures within { result.len ≤ length anchor.now }
    ensures deepest { result.len ≡ deepest (rest_of (all_of leaves.now)) anchor.now }
    ensures there { (n : ℕ) → n ≤ result.len → is_some (node_at table.now (take n anchor.now)) ≡ true }
    ensures absent { (n : ℕ) → result.len < n → n ≤ length anchor.now → node_at table.now (take n anchor.now) ≡ None }
    ensures best { (a : Anchored) × Best (all_of leaves.now) anchor.now result.previous a }
{
    let mut steps = Steps::<L>::begin(blank);
    let len = longest(table, anchor, &mut steps);
    let previous = holder(leaves, table, anchor, &mut steps);
    Site { len, previous }
}

/// The copies that an anchor needs at its site: that of its own, and those of its prefixes that get nodes.
fn copies_at(alloc: Global, anchor: &[u8], site: Site) -> Result<Ready, NoMemory>
    requires within { site.len ≤ length anchor.now }
    ensures anchor { IfOk result (λ ready. ready.anchor.items ≡ anchor.now) }
    ensures len { IfOk result (λ ready. ready.len ≡ site.len) }
    ensures previous { IfOk result (λ ready. ready.previous ≡ site.previous) }
    ensures made { IfOk result (λ ready.
        map (λ v. v.items) ready.prefixes.items ≡ fronts_of anchor.now site.len (length anchor.now - site.len)) }
{
    let prefixes = prefixes_of(alloc, anchor, site.len)?;
    let anchor = Vec::from_slice(alloc, anchor)?;
    Ok(Ready {
        anchor,
        len: site.len,
        previous: site.previous,
        prefixes,
    })
}

/// The prefixes of an anchor that are longer than a length, the shortest first.
fn prefixes_of(alloc: Global, anchor: &[u8], len: usize) -> Result<Vec<Vec<u8>>, NoMemory>
    requires within { len ≤ length anchor.now }
    ensures made { IfOk result (λ prefixes.
        map (λ v. v.items) prefixes.items ≡ fronts_of anchor.now len (length anchor.now - len)) }
{
    let mut prefixes = Vec::with_capacity(alloc, anchor.len() - len)?;
    'fronts: for n in 0..anchor.len() - len {
        let (front, _) = anchor.split_at(len + n + 1);
        let prefix = Vec::from_slice(alloc, front)?;
        prefixes.push(prefix)?;
    }
    Ok(prefixes)
}
