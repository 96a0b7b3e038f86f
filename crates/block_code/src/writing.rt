ghost use Rattle.std.specs.Prelude.{◌≡◌, ◌+◌, ◌*◌, ◌^◌, ◌<◌, ◌≤◌, ◌++◌, ◌∷◌, [], None, nat_le, length, replicate};
ghost use Rattle.std.specs.Prelude.{vec_capacity, IfSome, OnOk, OnErr, IsOk};
ghost use Rattle.std.specs.Int.{w16, to_be_bytes};
ghost use Rattle.rdb_base.specs.Runs.{sizes};
ghost use Rattle.rdb_base.specs.declared.limits.TheConstants.{PAIR_MAX};
ghost use Rattle.block_code.specs.declared.format.TheConstants.{UNIT};
ghost use Rattle.block_code.specs.Blocks.{block, block_size, head_size, offsets_from, pair_fields};

use crate::fields::first_place;
use crate::format::{NUMBER_LEN, UNIT};
use crate::reading::padding_of;
use rdb_base::{NoMemory, Pair, size, write_pair};

/// Whether a pair of this size fits a block that has so many pairs of so many bytes.
pub fn block_fits(count: usize, bytes: usize, size: u64) -> bool
    ensures { result ≡ nat_le (head_size (count + 1) + bytes + size) UNIT }
{
    if count > UNIT || bytes > UNIT || size > UNIT as u64 {
        return false;
    }
    NUMBER_LEN + NUMBER_LEN * (count + 1) + bytes + size as usize <= UNIT
}

/// The first pair, and those after it.
fn split(pairs: &[Pair]) -> Option<(&Pair, &[Pair])>
    ensures some { IfSome result (λ x. pairs.now ≡ x.0.now ∷ x.1.now) }
    ensures none { result ≡ None → pairs.now ≡ [] }
{
    match pairs {
        [pair, rest @ ..] => Some((pair, rest)),
        [] => None,
    }
}

/// The sizes of these pairs together.
fn sizes_of(pairs: &[Pair]) -> usize
    requires { length pairs.now < 2 ^ 16 }
    ensures sizes { result ≡ sizes pairs.now }
    ensures most { result ≤ PAIR_MAX * length pairs.now }
{
    let mut sum: usize = 0;
    for pair in pairs.iter() {
        sum += size(&pair.key, &pair.change) as usize;
    }
    sum
}

/// Adds a number of two bytes, where there is room.
fn add_number(out: &mut Vec<u8>, number: u16)
    requires { length out.old.items + 2 ≤ vec_capacity out.old }
    ensures items { out.new.items ≡ out.old.items ++ to_be_bytes w16 number }
    ensures capacity { vec_capacity out.old ≤ vec_capacity out.new }
{
    out.extend_from_slice(&number.to_be_bytes()).unwrap();
}

/// Adds the places of pairs that follow one another from this place on, where there is room.
fn add_offsets(out: &mut Vec<u8>, first: usize, pairs: &[Pair])
    requires room { length out.old.items + 2 * length pairs.now ≤ vec_capacity out.old }
    requires first { first ≤ UNIT }
    requires one_unit { 2 ≤ length pairs.now → first + sizes pairs.now ≤ UNIT }
    ensures items { out.new.items ≡ out.old.items ++ offsets_from first pairs.now }
    ensures len { length out.new.items ≡ length out.old.items + 2 * length pairs.now }
    ensures capacity { vec_capacity out.old ≤ vec_capacity out.new }
{
    let mut place = first;
    let mut rest = pairs;
    'offsets: while let Some((pair, more)) = split(rest) {
        add_number(out, place as u16);
        place += size(&pair.key, &pair.change) as usize;
        rest = more;
    }
}

/// Adds the fields of pairs, where there is room.
fn add_pairs(out: &mut Vec<u8>, pairs: &[Pair])
    requires { length out.old.items + sizes pairs.now ≤ vec_capacity out.old }
    ensures items { out.new.items ≡ out.old.items ++ pair_fields pairs.now }
    ensures len { length out.new.items ≡ length out.old.items + sizes pairs.now }
    ensures capacity { vec_capacity out.old ≤ vec_capacity out.new }
{
    let mut rest = pairs;
    'pairs: while let Some((pair, more)) = split(rest) {
        write_pair(out, &pair.key, &pair.change).unwrap();
        rest = more;
    }
}

/// Adds so many bytes 00, where there is room.
fn add_zeros(out: &mut Vec<u8>, count: usize)
    requires { length out.old.items + count ≤ vec_capacity out.old }
    ensures items { out.new.items ≡ out.old.items ++ replicate count 0 }
    ensures capacity { vec_capacity out.old ≤ vec_capacity out.new }
{
    out.resize(out.len() + count, 0).unwrap();
}

/// Adds the block of these pairs. With room for it, it is not refused; refused, nothing was added.
pub fn write_block(pairs: &[Pair], out: &mut Vec<u8>) -> Result<(), NoMemory>
    requires some { 1 ≤ length pairs.now }
    requires one_unit { 2 ≤ length pairs.now → block_size pairs.now ≤ UNIT }
    ensures ok { OnOk result (out.new.items ≡ out.old.items ++ block pairs.now) }
    ensures refused { OnErr result (out.new.items ≡ out.old.items) }
    ensures room { length out.old.items + length (block pairs.now) ≤ vec_capacity out.old → IsOk result }
    ensures capacity { vec_capacity out.old ≤ vec_capacity out.new }
{
    let first = first_place(pairs.len() as u16);
    let size = first + sizes_of(pairs);
    let padding = padding_of(size);
    out.reserve(size + padding)?;
    // From here on nothing is refused.
    add_number(out, pairs.len() as u16);
    add_offsets(out, first, pairs);
    add_pairs(out, pairs);
    add_zeros(out, padding);
    Ok(())
}
