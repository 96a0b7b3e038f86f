//! The pair field: a key with its change, as it lies in a log and in a table.
ghost use Rattle.std.specs.Prelude.{◌≡◌, ◌+◌, ◌≤◌, ◌++◌, length, vec_capacity, OnOk, OnErr, IsOk};
ghost use Rattle.rdb_base.specs.declared.limits.TheConstants.{PAIR_MAX};
ghost use Rattle.rdb_base.specs.PairFields.{GivesField, key_field_at, change_field_at, pair_at, lent_change, pair_field, change_field, size_of};

use crate::NoMemory;
use crate::bad_field::BadField;
use crate::change::Change;
use crate::fields::{slice_at, u16_at, u32_at};
use crate::key::Key;
use crate::limits::DELETION_TAG;

/// How long a key and a value may be.
#[derive(Clone, Copy, Debug, PartialEq, Eq)]
pub struct PairLimits {
    pub key_max: usize,
    pub value_max: usize,
}

/// What an update does at its key, lent.
#[derive(Clone, Copy, Debug, PartialEq, Eq)]
pub enum LentChange<'a> {
    /// The key has this value from then on.
    Put(&'a [u8]),
    /// The key has no value from then on.
    Del,
}

/// A key with its change, lent.
#[derive(Clone, Copy, Debug, PartialEq, Eq)]
pub struct PairField<'a> {
    pub key: &'a [u8],
    pub change: LentChange<'a>,
}

/// A key of 1 to `key_max` bytes after its length, and the bytes after it.
#[tactic(auto, unfolding(crate::specs::PairFields::key_field_at))]
fn key_of(key_max: usize, bytes: &[u8]) -> Result<(&[u8], &[u8]), BadField>
    ensures { GivesField (λ x. (x.0.now, x.1.now)) result (key_field_at key_max bytes.now) }
{
    let (len, rest) = u16_at(bytes)?;
    let len = len as usize;
    if len == 0 {
        return Err(BadField { left: bytes.len() });
    }
    if len > key_max {
        return Err(BadField { left: bytes.len() });
    }
    slice_at(len, rest)
}

/// A change whose value has at most `value_max` bytes, and the bytes after it.
#[tactic(auto, unfolding(crate::specs::PairFields::change_field_at))]
fn change_of(value_max: usize, bytes: &[u8]) -> Result<(LentChange<'_>, &[u8]), BadField>
    ensures { GivesField (λ x. (lent_change x.0, x.1.now)) result (change_field_at value_max bytes.now) }
{
    let (tag, rest) = u32_at(bytes)?;
    if tag == DELETION_TAG {
        return Ok((LentChange::Del, rest));
    }
    let len = tag as usize;
    if len > value_max {
        return Err(BadField { left: bytes.len() });
    }
    let (value, rest) = slice_at(len, rest)?;
    Ok((LentChange::Put(value), rest))
}

/// A pair within the limits, lent, and the bytes after it. It takes no memory.
///
/// The first wrong field is the key's length where that is cut, 0 or above the limit; the key where that is cut;
/// the tag where that is cut, or neither a deletion's nor a length within the limit; and the value where that is cut.
#[tactic(auto, unfolding(crate::specs::PairFields::pair_at))]
pub fn read_pair(limits: PairLimits, bytes: &[u8]) -> Result<(PairField<'_>, &[u8]), BadField>
    ensures { GivesField (λ x. ((x.0.key.now, lent_change x.0.change), x.1.now)) result (pair_at limits.key_max limits.value_max bytes.now) }
{
    let (key, rest) = key_of(limits.key_max, bytes)?;
    let (change, rest) = change_of(limits.value_max, rest)?;
    Ok((PairField { key, change }, rest))
}

/// How many bytes the pair field has.
pub fn size(key: &Key, change: &Change) -> u64
    ensures size { result ≡ size_of key.now change.now }
    ensures length { result ≡ length (pair_field key.now change.now) }
    ensures most { result ≤ PAIR_MAX }
{
    match change {
        Change::Put(value) => 6 + key.as_bytes().len() as u64 + value.as_bytes().len() as u64,
        Change::Del => 6 + key.as_bytes().len() as u64,
    }
}

/// Adds a change's field.
fn add_change(out: &mut Vec<u8>, change: &Change) -> Result<(), NoMemory>
    ensures ok { OnOk result (out.new.items ≡ out.old.items ++ change_field change.now) }
    ensures room { length out.old.items + length (change_field change.now) ≤ vec_capacity out.old → IsOk result }
    ensures capacity { vec_capacity out.old ≤ vec_capacity out.new }
{
    match change {
        Change::Put(value) => {
            let bytes = value.as_bytes();
            out.extend_from_slice(&(bytes.len() as u32).to_be_bytes())?;
            out.extend_from_slice(bytes)?;
        }
        Change::Del => {
            out.extend_from_slice(&DELETION_TAG.to_be_bytes())?;
        }
    }
    Ok(())
}

/// Adds the pair field. With room for it, it is not refused; refused, nothing was added.
pub fn write_pair(out: &mut Vec<u8>, key: &Key, change: &Change) -> Result<(), NoMemory>
    ensures ok { OnOk result (out.new.items ≡ out.old.items ++ pair_field key.now change.now) }
    ensures refused { OnErr result (out.new.items ≡ out.old.items) }
    ensures room { length out.old.items + length (pair_field key.now change.now) ≤ vec_capacity out.old → IsOk result }
    ensures capacity { vec_capacity out.old ≤ vec_capacity out.new }
{
    out.reserve(size(key, change) as usize)?;
    // From here on nothing is refused.
    let bytes = key.as_bytes();
    out.extend_from_slice(&(bytes.len() as u16).to_be_bytes())
        .unwrap();
    out.extend_from_slice(bytes).unwrap();
    add_change(out, change).unwrap();
    Ok(())
}
