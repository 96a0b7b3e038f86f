//! Finds and entries, in so many threads.
ghost use Rattle.std.specs.Prelude.{◌≡◌, ◌<◌};

use crate::anchors::{ANCHORS, SIZE, append, append_each, first_anchors, more_anchors, trie_of};
use crate::keys::{key_of, next_place, number_at};
use meta_trie::MetaTrie;
use rdb_base::{Key, Steps};
use std::alloc::Global;
use std::marker::Brand;
use std::rt::Clock;
use std::sync::Wait;
use std::sync::atomic::{AtomicU64, Ordering};
use std::sync::ledger::{Blank, Ledger};
use std::thread::{self, Threads};
use std::time::Duration;
use table_switch::{Ends, Switch, TrieReader, TrieWriter, Waits};
use worm_leaf::Anchor;

/// A reader in its thread, and the sum of the leaves that it found.
#[derive(Drop)]
struct Caller {
    reader: Option<TrieReader>,
    sum: u64,
}

/// All keys, rising.
fn keys_of(alloc: Global) -> Option<Vec<Key>> {
    let mut keys = Vec::new(alloc);
    for place in 0..SIZE {
        let key = Key::try_new(alloc, &key_of(number_at(place, SIZE))).ok()?;
        keys.push(key).ok()?;
    }
    Some(keys)
}

/// Finds so many keys in one trie, in each of so many threads. The sum of the leaves is the answer.
pub(crate) fn find_all<R: Threads + Wait + Sync>(
    rt: &R,
    alloc: Global,
    readers: u32,
    times: u32,
) -> Option<u64> {
    let anchors = first_anchors(alloc)?;
    let trie = trie_of(alloc, anchors.as_slice())?;
    let keys = keys_of(alloc)?;
    let sums = thread::map_indices(
        rt,
        alloc,
        readers as usize,
        &|_| { found(&trie, keys.as_slice(), times) },
    );
    let mut sum: u64 = 0;
    for each in sums.ok()?.as_slice() {
        sum = sum.wrapping_add(*each);
    }
    Some(sum)
}

fn found(trie: &MetaTrie, keys: &[Key], times: u32) -> u64 {
    counted_finds::<Brand>(trie, keys, times, Blank::new(1))
}

fn counted_finds<L: Ledger>(trie: &MetaTrie, keys: &[Key], times: u32, blank: Blank) -> u64
    requires name { blank.name ≡ L.name }
    requires parts { blank.parts ≡ L.parts }
    requires some { 0 < blank.parts }
{
    let mut steps = Steps::<L>::begin(blank);
    let mut sum: u64 = 0;
    let mut place = 0;
    for _ in 0..times {
        place = next_place(place, SIZE);
        if let Some(key) = keys.get(place as usize) {
            sum = sum.wrapping_add(trie.find(key.as_bytes(), &mut steps) as u64);
        }
    }
    sum
}

/// So many entries. The reader lies on the thread's own stack meanwhile: an entry writes to it, and two of them side by
/// side would share a line of the processor's cache.
fn entered<R: Wait>(rt: &R, caller: &mut Caller, keys: &[Key], times: u32) {
    let Some(mut reader) = caller.reader.take() else {
        return;
    };
    caller.sum = counted_entries::<Brand, R>(rt, &mut reader, keys, times, Blank::new(1));
    caller.reader = Some(reader);
}

fn counted_entries<L: Ledger, R: Wait>(
    rt: &R,
    reader: &mut TrieReader,
    keys: &[Key],
    times: u32,
    blank: Blank,
) -> u64
    requires name { blank.name ≡ L.name }
    requires parts { blank.parts ≡ L.parts }
    requires some { 0 < blank.parts }
{
    let mut steps = Steps::<L>::begin(blank);
    let mut sum: u64 = 0;
    let mut place = 0;
    for _ in 0..times {
        place = next_place(place, SIZE);
        if let Some(key) = keys.get(place as usize) {
            sum = sum.wrapping_add(reader.enter(rt, key, &mut steps).start as u64);
        }
    }
    sum
}

/// A caller for each place.
fn callers_of(alloc: Global, places: Vec<Option<TrieReader>>) -> Option<Vec<Caller>> {
    let mut callers = Vec::new(alloc);
    for reader in places {
        callers.push(Caller { reader, sum: 0 }).ok()?;
    }
    Some(callers)
}

/// The entries of all callers, each in its thread.
fn enter_each<R: Threads + Wait + Sync>(
    rt: &R,
    callers: &mut Vec<Caller>,
    keys: &[Key],
    times: u32,
) {
    let threads = callers.len().max(1);
    thread::for_each_mut(
        rt,
        callers.as_mut_slice(),
        threads,
        &|_, caller: &mut Caller| { entered(rt, caller, keys, times) },
    );
}

fn sum_of(callers: &[Caller]) -> u64 {
    let mut sum: u64 = 0;
    for caller in callers {
        sum = sum.wrapping_add(caller.sum);
    }
    sum
}

/// Finds so many keys by the switch, in each of so many threads. The sum of the leaves is the answer.
pub(crate) fn enter_all<R: Threads + Wait + Sync>(
    rt: &R,
    alloc: Global,
    readers: u32,
    times: u32,
) -> Option<u64> {
    let anchors = first_anchors(alloc)?;
    let (mut writer, places) = Switch::make(alloc, readers, Waits::new(rt)).ok()?;
    append_each(alloc, &mut writer, anchors.as_slice())?;
    writer.publish(rt).ok()?;
    let keys = keys_of(alloc)?;
    let mut callers = callers_of(alloc, places)?;
    enter_each(rt, &mut callers, keys.as_slice(), times);
    Some(sum_of(callers.as_slice()))
}

/// The same beside a writer that publishes one anchor more each millisecond. The number of readers is the answer.
pub(crate) fn enter_beside<R: Threads + Wait + Clock + Sync>(
    rt: &R,
    alloc: Global,
    readers: u32,
    times: u32,
) -> Option<u64> {
    let anchors = first_anchors(alloc)?;
    let more = more_anchors(alloc)?;
    let (mut writer, places) = Switch::make(alloc, readers, Waits::new(rt)).ok()?;
    append_each(alloc, &mut writer, anchors.as_slice())?;
    writer.publish(rt).ok()?;
    let keys = keys_of(alloc)?;
    let mut callers = callers_of(alloc, places)?;
    let done = AtomicU64::new(0);
    thread::join(
        rt,
        || {
            enter_each(rt, &mut callers, keys.as_slice(), times);
            done.store(1, Ordering::SeqCst);
        },
        || publish_until(rt, alloc, &mut writer, more.as_slice(), &done),
    );
    Some(callers.len() as u64)
}

/// Publishes an anchor each millisecond, until the readers are done.
fn publish_until<E: Ends, R: Wait + Clock>(
    rt: &R,
    alloc: Global,
    writer: &mut TrieWriter<E>,
    anchors: &[Anchor],
    done: &AtomicU64,
) {
    for (anchor, leaf) in anchors.iter().zip(0..ANCHORS) {
        if done.load(Ordering::SeqCst) > 0 || append(alloc, writer, anchor, leaf).is_none() {
            return;
        }
        if writer.publish(rt).is_err() {
            return;
        }
        thread::sleep(rt, Duration::from_millis(1));
    }
}
