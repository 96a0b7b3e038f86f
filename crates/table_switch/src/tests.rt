//! What no clause says: that what is published is seen, that readers and a writer go on beside each other, and that
//! the memory of a switch comes back.
ghost use Rattle.std.specs.Prelude.{◌≡◌, ◌<◌};

use crate::publishing::Looks;
use crate::trie_reader::TrieReader;
use crate::{Ends, Switch, Trail, TrieWriter, Waits};
use meta_trie::TrieError;
use rdb_base::{Change, Key, Pair, Steps};
use std::alloc::{Alloc, Global};
use std::fs;
use std::marker::Brand;
use std::rt::Files;
use std::sync::Wait;
use std::sync::atomic::{AtomicU64, Ordering};
use std::sync::ledger::{Blank, Ledger};
use std::test::Fail;
use std::thread::{Threads, join};
use worm_leaf::{Anchor, Leaf};

/// The anchor of a split whose right half begins with these bytes: 32 keys go on from them, and 32 from the string that
/// is one below.
fn anchor_of<L: Ledger>(alloc: Global, bytes: &[u8], steps: &mut Steps<L>) -> Option<Anchor> {
    let mut below = Vec::from_slice(alloc, bytes).ok()?;
    let last = below.pop()?;
    below.push(last.wrapping_sub(1)).ok()?;
    let mut leaf = Leaf::make(alloc).ok()?;
    for number in 0..32 {
        put(alloc, &mut leaf, below.as_slice(), number, steps)?;
        put(alloc, &mut leaf, bytes, number, steps)?;
    }
    if !leaf.is_full() {
        return None;
    }
    let mut anchor = Anchor::make(alloc).ok()?;
    leaf.split_anchor(&mut anchor);
    Some(anchor)
}

/// Puts a key of these bytes and one more.
fn put<L: Ledger>(
    alloc: Global,
    leaf: &mut Leaf,
    front: &[u8],
    last: u8,
    steps: &mut Steps<L>,
) -> Option<()> {
    let mut bytes = Vec::from_slice(alloc, front).ok()?;
    bytes.push(last).ok()?;
    let key = Key::try_new(alloc, bytes.as_slice()).ok()?;
    let pair = Pair {
        key,
        change: Change::Del,
    };
    if leaf.is_full() || !leaf.covers(&pair.key, steps) {
        return None;
    }
    leaf.put_reserved(pair);
    Some(())
}

/// Makes an anchor of these bytes.
fn made_anchor(alloc: Global, bytes: &[u8]) -> Option<Anchor> {
    counted_anchor::<Brand>(alloc, bytes, Blank::new(1))
}

fn counted_anchor<L: Ledger>(alloc: Global, bytes: &[u8], blank: Blank) -> Option<Anchor>
    requires name { blank.name ≡ L.name }
    requires parts { blank.parts ≡ L.parts }
    requires some { 0 < blank.parts }
{
    let mut steps = Steps::<L>::begin(blank);
    anchor_of(alloc, bytes, &mut steps)
}

/// Appends an anchor. `None` where it is there.
fn append_made<E: Ends>(
    alloc: Global,
    writer: &mut TrieWriter<E>,
    anchor: &Anchor,
    leaf: u32,
) -> Option<Result<(), TrieError>> {
    counted_append::<Brand, E>(alloc, writer, anchor, leaf, Blank::new(1))
}

fn counted_append<L: Ledger, E: Ends>(
    alloc: Global,
    writer: &mut TrieWriter<E>,
    anchor: &Anchor,
    leaf: u32,
    blank: Blank,
) -> Option<Result<(), TrieError>>
    requires name { blank.name ≡ L.name }
    requires parts { blank.parts ≡ L.parts }
    requires some { 0 < blank.parts }
{
    let mut steps = Steps::<L>::begin(blank);
    if writer.has(anchor.as_bytes(), &mut steps) {
        return None;
    }
    let after = writer.find(anchor.as_bytes(), &mut steps);
    Some(writer.append(alloc, anchor, leaf, after))
}

/// Appends an anchor of these bytes. `None` where it is there, or cannot be made.
fn append<E: Ends>(
    alloc: Global,
    writer: &mut TrieWriter<E>,
    bytes: &[u8],
    leaf: u32,
) -> Option<Result<(), TrieError>> {
    let anchor = made_anchor(alloc, bytes)?;
    append_made(alloc, writer, &anchor, leaf)
}

/// The leaf and the number of anchors that a reader finds.
fn enter<R: Wait>(
    rt: &R,
    alloc: Global,
    reader: &mut TrieReader,
    key: &[u8],
) -> Option<(u32, u64)> {
    let key = Key::try_new(alloc, key).ok()?;
    let trail = counted_entry::<Brand, R>(rt, reader, &key, Blank::new(1));
    Some((trail.start, trail.adds))
}

fn counted_entry<L: Ledger, R: Wait>(
    rt: &R,
    reader: &mut TrieReader,
    key: &Key,
    blank: Blank,
) -> Trail
    requires name { blank.name ≡ L.name }
    requires parts { blank.parts ≡ L.parts }
    requires some { 0 < blank.parts }
{
    let mut steps = Steps::<L>::begin(blank);
    reader.enter(rt, key, &mut steps)
}

/// The next reader of the list, from its end.
fn next_reader(places: &mut Vec<Option<TrieReader>>) -> Option<TrieReader> {
    places.pop()?
}

#[test]
fn a_pending_anchor_is_not_seen_and_a_published_one_is(rt: HostRuntime) -> Result<(), Fail> {
    let alloc = rt.alloc();
    let (mut writer, mut places) = Switch::make(alloc, 1, Waits::new(&rt))?;
    let mut reader = next_reader(&mut places).expect(&rt, "a reader");
    assert_eq!(rt; enter(&rt, alloc, &mut reader, b"z"), Some((0, 0)));
    assert_eq!(rt; append(alloc, &mut writer, b"m", 1), Some(Ok(())));
    assert_eq!(rt; enter(&rt, alloc, &mut reader, b"z"), Some((0, 0)));
    assert_eq!(rt; writer.publish(&rt), Ok(()));
    assert_eq!(rt; enter(&rt, alloc, &mut reader, b"z"), Some((1, 1)));
    assert_eq!(rt; enter(&rt, alloc, &mut reader, b"a"), Some((0, 1)));
    Ok(())
}

#[test]
fn ab_and_abc_cover_their_keys(rt: HostRuntime) -> Result<(), Fail> {
    let alloc = rt.alloc();
    let (mut writer, mut places) = Switch::make(alloc, 1, Waits::new(&rt))?;
    let mut reader = next_reader(&mut places).expect(&rt, "a reader");
    assert_eq!(rt; append(alloc, &mut writer, b"ab", 1), Some(Ok(())));
    assert_eq!(rt; append(alloc, &mut writer, b"abc", 2), Some(Ok(())));
    assert_eq!(rt; append(alloc, &mut writer, b"ab", 3), None);
    assert_eq!(rt; writer.publish(&rt), Ok(()));
    for (key, leaf) in [(b"aa", 0), (b"ab", 1), (b"ac", 2)] {
        assert_eq!(rt; enter(&rt, alloc, &mut reader, key), Some((leaf, 2)));
    }
    for (key, leaf) in [(b"abb", 1), (b"abc", 2), (b"abd", 2)] {
        assert_eq!(rt; enter(&rt, alloc, &mut reader, key), Some((leaf, 2)));
    }
    Ok(())
}

#[test]
fn two_readers_enter_at_different_times(rt: HostRuntime) -> Result<(), Fail> {
    let alloc = rt.alloc();
    let (mut writer, mut places) = Switch::make(alloc, 2, Waits::new(&rt))?;
    let mut early = next_reader(&mut places).expect(&rt, "a reader");
    let mut late = next_reader(&mut places).expect(&rt, "a second reader");
    assert_eq!(rt; append(alloc, &mut writer, b"m", 1), Some(Ok(())));
    assert_eq!(rt; writer.publish(&rt), Ok(()));
    assert_eq!(rt; enter(&rt, alloc, &mut early, b"z"), Some((1, 1)));
    assert_eq!(rt; append(alloc, &mut writer, b"t", 2), Some(Ok(())));
    assert_eq!(rt; writer.publish(&rt), Ok(()));
    assert_eq!(rt; enter(&rt, alloc, &mut late, b"z"), Some((2, 2)));
    assert_eq!(rt; enter(&rt, alloc, &mut late, b"o"), Some((1, 2)));
    assert_eq!(rt; enter(&rt, alloc, &mut early, b"o"), Some((1, 2)));
    Ok(())
}

#[test]
fn there_is_a_place_for_each_caller(rt: HostRuntime) -> Result<(), Fail> {
    let alloc = rt.alloc();
    let (mut writer, places) = Switch::make(alloc, 65, Waits::new(&rt))?;
    assert!(rt; places.iter().all(|place| place.is_some()));
    assert!(rt; writer.reader().is_none());
    drop(places);
    assert!(rt; writer.reader().is_some());
    let (nobodys, places) = Switch::make(alloc, 0, writer.ender.again())?;
    assert!(rt; places.is_empty());
    assert_eq!(rt; counted(&nobodys, b"a"), (0, false));
    Ok(())
}

/// Whether a reader that is made after a publish finds what was published, in the place of one that is gone.
fn late_reader_finds<R: Wait>(rt: &R, alloc: Global) -> Option<bool> {
    let (mut writer, mut places) = Switch::make(alloc, 1, Waits::new(rt)).ok()?;
    let mut early = next_reader(&mut places)?;
    let appended = append(alloc, &mut writer, b"m", 1)?.is_ok();
    let published = writer.publish(rt).is_ok();
    let found = enter(rt, alloc, &mut early, b"z")? == (1, 1);
    let front = early.front();
    drop(early);
    let mut late = writer.reader()?;
    front.again().agree(&front);
    let again = enter(rt, alloc, &mut late, b"z")? == (1, 1);
    drop(writer.front());
    Some(appended && published && found && again)
}

#[test]
fn a_reader_that_comes_late_begins_where_others_are(rt: HostRuntime) -> Result<(), Fail> {
    let alloc = rt.alloc();
    assert!(rt; late_reader_finds(&rt, alloc) == Some(true));
    Ok(())
}

/// The leaf that all appended anchors give for a string, and whether it is one of them.
fn counted<E: Ends>(writer: &TrieWriter<E>, bytes: &[u8]) -> (u32, bool) {
    counted_question::<Brand, E>(writer, bytes, Blank::new(1))
}

fn counted_question<L: Ledger, E: Ends>(
    writer: &TrieWriter<E>,
    bytes: &[u8],
    blank: Blank,
) -> (u32, bool)
    requires name { blank.name ≡ L.name }
    requires parts { blank.parts ≡ L.parts }
    requires some { 0 < blank.parts }
{
    let mut steps = Steps::<L>::begin(blank);
    (
        writer.find(bytes, &mut steps),
        writer.has(bytes, &mut steps),
    )
}

#[test]
fn a_full_trie_refuses_before_anything_is_changed(rt: HostRuntime) -> Result<(), Fail> {
    let alloc = rt.alloc();
    let (mut writer, mut places) = Switch::make(alloc, 1, Waits::new(&rt))?;
    let mut reader = next_reader(&mut places).expect(&rt, "a reader");
    let mut bytes = [b'x'; 257];
    for group in 0..255 {
        bytes[0] = group;
        assert_eq!(rt;
            append(alloc, &mut writer, &bytes, group as u32 + 1),
            Some(Ok(()))
        );
    }
    bytes[0] = 255;
    let full = TrieError::TrieFull { nodes: 65_536 };
    assert_eq!(rt;
        append(alloc, &mut writer, &bytes[..1], 256),
        Some(Err(full))
    );
    assert_eq!(rt; counted(&writer, &bytes[..1]), (255, false));
    assert_eq!(rt; writer.publish(&rt), Ok(()));
    assert_eq!(rt; enter(&rt, alloc, &mut reader, &bytes), Some((255, 255)));
    Ok(())
}

/// Waits until a flag is set.
fn wait_for<R: Wait>(rt: &R, flag: &AtomicU64) {
    for _ in rt.forever() {
        if flag.load(Ordering::SeqCst) > 0 {
            return;
        }
    }
    unreachable!()
}

/// Enters, waits until something was published, and only then finds the key and leaves.
fn late_read<R: Wait>(
    rt: &R,
    reader: TrieReader,
    entered: &AtomicU64,
    published: &AtomicU64,
    key: &[u8],
) -> Option<(TrieReader, u32, u64)> {
    counted_late_read::<Brand, R>(rt, reader, entered, published, key, Blank::new(1))
}

fn counted_late_read<L: Ledger, R: Wait>(
    rt: &R,
    reader: TrieReader,
    entered: &AtomicU64,
    published: &AtomicU64,
    key: &[u8],
    blank: Blank,
) -> Option<(TrieReader, u32, u64)>
    requires name { blank.name ≡ L.name }
    requires parts { blank.parts ≡ L.parts }
    requires some { 0 < blank.parts }
{
    let mut steps = Steps::<L>::begin(blank);
    let reading = reader.into_place().enter_as::<Looks>().ok()?;
    entered.store(1, Ordering::SeqCst);
    wait_for(rt, published);
    let trail = reading.get().trail(key, &mut steps);
    let front = reading.get().front();
    let reader = TrieReader::at(reading.leave(), front);
    Some((reader, trail.start, trail.adds))
}

/// Publishes one anchor, and then another one.
fn publish_twice<E: Ends, R: Wait>(
    rt: &R,
    alloc: Global,
    writer: &mut TrieWriter<E>,
    entered: &AtomicU64,
    published: &AtomicU64,
) -> Option<bool> {
    wait_for(rt, entered);
    let first = append(alloc, writer, b"m", 1)?.is_ok() && writer.publish(rt).is_ok();
    published.store(1, Ordering::SeqCst);
    let second = append(alloc, writer, b"t", 2)?.is_ok() && writer.publish(rt).is_ok();
    Some(first && second)
}

/// A reader that is in the old trie, while the writer publishes twice.
fn read_beside<E: Ends + Send, R: Threads + Wait + Sync>(
    rt: &R,
    alloc: Global,
    reader: TrieReader,
    writer: &mut TrieWriter<E>,
) -> (Option<(TrieReader, u32, u64)>, Option<bool>) {
    let entered = AtomicU64::new(0);
    let published = AtomicU64::new(0);
    join(
        rt,
        || late_read(rt, reader, &entered, &published, b"z"),
        || publish_twice(rt, alloc, writer, &entered, &published),
    )
}

#[test]
fn an_old_trie_is_read_while_the_writer_publishes_twice(rt: HostRuntime) -> Result<(), Fail> {
    let alloc = rt.alloc();
    let (mut writer, mut places) = Switch::make(alloc, 1, Waits::new(&rt))?;
    let reader = next_reader(&mut places).expect(&rt, "a reader");
    let (read, done) = read_beside(&rt, alloc, reader, &mut writer);
    assert_eq!(rt; done, Some(true));
    let (mut reader, start, adds) = read.expect(&rt, "a read");
    assert_eq!(rt; (start, adds), (0, 0));
    assert_eq!(rt; enter(&rt, alloc, &mut reader, b"z"), Some((2, 2)));
    Ok(())
}

/// Makes a switch of some 60 kB a trie, uses it, and drops it.
fn round<R: Wait>(rt: &R, alloc: Global, anchor: &Anchor) -> Option<bool> {
    let (mut writer, mut places) = Switch::make(alloc, 4, Waits::new(rt)).ok()?;
    let mut reader = next_reader(&mut places)?;
    let appended = append_made(alloc, &mut writer, anchor, 1)?.is_ok();
    let published = writer.publish(rt).is_ok();
    let seen = enter(rt, alloc, &mut reader, b"z")? == (1, 1);
    Some(appended && published && seen)
}

/// Whether so many rounds went well.
fn rounds<R: Wait>(rt: &R, alloc: Global, anchor: &Anchor, times: u64) -> bool {
    for _ in 0..times {
        if round(rt, alloc, anchor) != Some(true) {
            return false;
        }
    }
    true
}

/// How many pages of memory this process has.
fn pages<R: Files + Alloc>(rt: &R) -> Option<u64> {
    let text = fs::read_to_string(rt, "/proc/self/statm").ok()?;
    text.as_str().split(' ').nth(1)?.parse::<u64>().ok()
}

#[test]
fn the_memory_of_400_switches_comes_back(rt: HostRuntime) -> Result<(), Fail> {
    let alloc = rt.alloc();
    let anchor = made_anchor(alloc, &[b'm'; 250]).expect(&rt, "an anchor");
    assert!(rt; rounds(&rt, alloc, &anchor, 20));
    let before = pages(&rt).expect(&rt, "the pages of the process");
    assert!(rt; rounds(&rt, alloc, &anchor, 400));
    let after = pages(&rt).expect(&rt, "the pages of the process");
    assert!(rt;
        after < before.saturating_add(256),
        "{before} and then {after}"
    );
    Ok(())
}
