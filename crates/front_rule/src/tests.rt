//! Each public call once with ample memory, and a printed text.
ghost use Rattle.std.specs.Prelude.{◌≡◌, [], None};

use crate::*;
use rdb_base::{Change, Entry, Key};
use std::marker::Brand;
use std::process::Abort;
use std::test::Fail;

// The pass's caller removes the row at this key; the leaf is over all keys.
#[tactic(auto, using(crate::proofs::KeyLemmas::in_range_all))]
fn remove<K: StoreName>(
    rt: &(impl Abort + AllocGlobal),
    pen: &mut Pen<K>,
    leaf: &mut LeafMark<K>,
    pass: &mut Pass<K>,
    key: &[u8],
) -> Result<u64, HistorySpent>
    requires open { (leaf.old.memtable ≡ pen.old.memtable) × (leaf.old.low ≡ []) × (leaf.old.high ≡ None) }
    ensures open { (leaf.new.memtable ≡ pen.new.memtable) × (leaf.new.low ≡ []) × (leaf.new.high ≡ None) }
{
    let entry = Entry {
        caller: pass.caller(),
        ordinal: pass.ordinal(),
        key: Key::try_new(rt.alloc(), key).expect(rt, "memory"),
        change: Change::Del,
    };
    append(pen, leaf, pass, &entry)
}

// Each of two callers appends an entry, to a history whose first number is 5.
fn both_append<K: StoreName>(
    rt: &(impl Abort + AllocGlobal),
    pen: &mut Pen<K>,
    leaf: &mut LeafMark<K>,
    a: &mut Pass<K>,
    b: &mut Pass<K>,
)
    requires open { (leaf.old.memtable ≡ pen.old.memtable) × (leaf.old.low ≡ []) × (leaf.old.high ≡ None) }
{
    assert_eq!(rt; remove(rt, pen, leaf, a, b"x"), Ok(5));
    assert_eq!(rt; remove(rt, pen, leaf, b, b"y"), Ok(6));
    assert_eq!(rt; (a.front(), b.front()), (6, 7));
}

// One caller looks at the leaf and meets the other: both have then seen both entries.
fn both_see<K: StoreName>(
    rt: &(impl Abort + AllocGlobal),
    leaf: &mut LeafMark<K>,
    a: &mut Pass<K>,
    b: &mut Pass<K>,
) {
    assert_eq!(rt; look(leaf, a), 7);
    meet(a, b);
    assert_eq!(rt; tell(a).front(), 7);
    assert_eq!(rt; pin(b).front(), 7);
}

// One caller is told of a failure and sees all that there is; then both end.
fn both_end<K: StoreName>(
    rt: &(impl Abort + AllocGlobal),
    pen: &mut Pen<K>,
    a: Pass<K>,
    mut b: Pass<K>,
) {
    failed(pen, &mut b);
    assert_eq!(rt; catch_up(pen, &mut b), 7);
    end(pen, a);
    end(pen, b);
    assert_eq!(rt; note(pen).front(), 7);
}

fn two_entries<K: StoreName>(rt: &(impl Abort + AllocGlobal), blank: FrontBlank) -> Result<(), Fail>
    requires { (blank.table ≡ K.table) × (blank.origin.first ≡ K.first) × (K.callers ≡ 2) }
{
    let FrontParts {
        mut pen,
        mut leaf,
        mut passes,
        keeper: _,
        desk: _,
    } = Front::<K>::make(rt.alloc(), blank, 2)?;
    let mut b = passes.pop().expect(rt, "caller 1");
    let mut a = passes.pop().expect(rt, "caller 0");
    both_append(rt, &mut pen, &mut leaf, &mut a, &mut b);
    both_see(rt, &mut leaf, &mut a, &mut b);
    both_end(rt, &mut pen, a, b);
    Ok(())
}

// Memtable 3 ends at once, and memtable 4 begins; the answer is a mark over all its keys, and the note of its base.
fn next_begins<K: StoreName>(
    rt: &(impl Abort + AllocGlobal),
    pen: &mut Pen<K>,
    leaf: &mut LeafMark<K>,
    desk: &Desk<K>,
) -> (LeafMark<K>, FrontNote<K>)
    requires third { (pen.old.memtable ≡ 3) × (leaf.old.memtable ≡ 3) }
    ensures all_keys { (result.0.low ≡ []) × (result.0.high ≡ None) }
{
    assert_eq!(rt; (pen.memtable(), leaf.memtable()), (3, 3));
    let upto = note(pen).front();
    settled(pen, upto);
    let (from, mut next) = freeze(pen, 4);
    assert_eq!(rt; from, 5);
    let mut base = base_note(desk, &mut next);
    assert_eq!(rt; (base.front(), base.memtable()), (5, 4));
    ended(desk, leaf, &mut base);
    (next, base)
}

// The leaf of memtable 4 is cut at a key, and a pass learns that the memtable has begun.
#[tactic(auto, using(crate::proofs::KeyLemmas::in_range_all))]
fn leaf_is_cut<K: StoreName>(
    rt: &(impl Abort + AllocGlobal),
    next: (LeafMark<K>, FrontNote<K>),
    desk: &Desk<K>,
    pass: &mut Pass<K>,
)
    requires all_keys { (next.0.low ≡ []) × (next.0.high ≡ None) }
{
    let (mut left, base) = next;
    let at = Key::try_new(rt.alloc(), b"m").expect(rt, "memory");
    let right = part(desk, &mut left, &at);
    assert_eq!(rt; (left.memtable(), right.memtable()), (4, 4));
    learn(pass, base);
    assert_eq!(rt; pass.memtable(), 4);
}

// The keeper's numbers rise from 2 and 7, and pen and pass are told.
fn numbers_rise<K: StoreName>(
    rt: &(impl Abort + AllocGlobal),
    keeper: &mut Keeper<K>,
    desk: &Desk<K>,
    pen: &mut Pen<K>,
    pass: &mut Pass<K>,
)
    requires { (keeper.old.live ≡ 2) × (keeper.old.next ≡ 7) }
{
    let kept = keep(keeper, desk, 8, 9);
    assert_eq!(rt; (kept.live(), kept.next()), (8, 9));
    release_mark(pen, kept);
    let kept = keep(keeper, desk, 8, 10);
    learn_next(pass, kept);
    live_meet(pen, keeper);
}

fn next_memtable<K: StoreName>(
    rt: &(impl Abort + AllocGlobal),
    blank: FrontBlank,
) -> Result<(), Fail>
    requires name { (blank.table ≡ K.table) × (blank.origin.first ≡ K.first) × (K.callers ≡ 1) }
    requires origin { blank.origin ≡ record { first = 5; memtable = 3; live = 2; next = 7 } }
{
    let FrontParts {
        mut pen,
        mut leaf,
        mut passes,
        mut keeper,
        desk,
    } = Front::<K>::make(rt.alloc(), blank, 1)?;
    let mut pass = passes.pop().expect(rt, "caller 0");
    let next = next_begins(rt, &mut pen, &mut leaf, &desk);
    leaf_is_cut(rt, next, &desk.try_copy()?, &mut pass);
    numbers_rise(rt, &mut keeper, &desk, &mut pen, &mut pass);
    Ok(())
}

#[test]
fn two_callers_append_to_one_list(rt: HostRuntime) -> Result<(), Fail> {
    let blank = FrontBlank::make(rt.alloc(), 5, 3, 2, 7)?;
    two_entries::<Brand>(&rt, blank)
}

#[test]
fn a_memtable_ends_where_the_next_one_begins(rt: HostRuntime) -> Result<(), Fail> {
    let blank = FrontBlank::make(rt.alloc(), 5, 3, 2, 7)?;
    next_memtable::<Brand>(&rt, blank)
}

#[test]
fn a_spent_history_tells_its_end(rt: HostRuntime) -> Result<(), Fail> {
    let spent = HistorySpent {
        number: 4_611_686_018_427_387_904,
    };
    let text = format!(in rt.alloc(); "{spent}")?;
    assert_eq!(rt; text.as_str(), "no number is left at 4611686018427387904");
    Ok(())
}
