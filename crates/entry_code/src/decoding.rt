ghost use Rattle.std.specs.Prelude.{◌≡◌, ◌+◌, ◌^◌, ◌<◌, ◌≤◌, length, Ok, IsOk, IfOk, IfErr};
ghost use Rattle.entry_code.specs.Answers.{GivesFields, GivesPayload, IfFieldMemory, IfMemory, TellsPlace};
ghost use Rattle.entry_code.specs.Payloads.{kind_at, header_fields, entry_at, entries_at, entries_fields, first_entry, header_of, entries_of};
ghost use Rattle.rdb_base.specs.PairFields.{GivesField, lent_change};
ghost use Rattle.rdb_base.specs.declared.limits.TheConstants.{NUMBER_MAX};

use crate::entry_error::EntryError;
use crate::field_error::FieldError;
use crate::format::{ENTRIES_KIND, HEADER_KIND};
use rdb_base::fields::{u8_at, u32_at, u64_at};
use rdb_base::{
    BadField, Change, Entry, KEY_MAX, Key, LentChange, NUMBER_MAX, PairLimits, VALUE_MAX, Value,
    read_pair,
};
use std::alloc::Global;

fn kind_of(kind: u8, bytes: &[u8]) -> Result<&[u8], BadField>
    ensures { GivesField (λ x. x.now) result (kind_at kind bytes.now) }
{
    let (found, rest) = u8_at(bytes)?;
    if found != kind {
        return Err(BadField { left: bytes.len() });
    }
    Ok(rest)
}

#[tactic(auto, unfolding(crate::specs::Payloads::header_fields))]
fn header_from(bytes: &[u8]) -> Result<(u64, u64), BadField>
    ensures exact { GivesField (λ x. record { segment = x.0; first = x.1 }) result (header_fields bytes.now) }
    ensures within { IfOk result (λ x. x.1 ≤ NUMBER_MAX) }
{
    let rest = kind_of(HEADER_KIND, bytes)?;
    let (segment, rest) = u64_at(rest)?;
    let (first, after) = u64_at(rest)?;
    if first < segment {
        return Err(BadField { left: rest.len() });
    }
    if first > NUMBER_MAX {
        return Err(BadField { left: rest.len() });
    }
    if !after.is_empty() {
        return Err(BadField { left: after.len() });
    }
    Ok((segment, first))
}

/// The segment that a header names, and the number of its first entry.
pub fn decode_header(payload: &[u8]) -> Result<(u64, u64), EntryError>
    ensures exact { GivesPayload (λ x. record { segment = x.0; first = x.1 }) result (header_of payload.now) }
    ensures place { IfErr result TellsPlace }
    ensures within { IfOk result (λ x. x.1 ≤ NUMBER_MAX) }
{
    match header_from(payload) {
        Ok(header) => Ok(header),
        Err(wrong) => Err(EntryError::BadEntry {
            at: payload.len().saturating_sub(wrong.left),
        }),
    }
}

fn owned(alloc: Global, change: LentChange<'_>) -> Result<Change, FieldError>
    ensures { GivesFields (λ x. x) result (Ok (lent_change change.entry)) }
{
    match change {
        LentChange::Put(value) => match Value::try_new(alloc, value) {
            Ok(value) => Ok(Change::Put(value)),
            Err(_) => Err(FieldError::Memory),
        },
        LentChange::Del => Ok(Change::Del),
    }
}

#[tactic(auto, unfolding(crate::specs::Payloads::entry_at))]
fn entry_of(alloc: Global, bytes: &[u8]) -> Result<(Entry, &[u8]), FieldError>
    ensures exact { GivesFields (λ x. (x.0, x.1.now)) result (entry_at bytes.now) }
    ensures memory { IfErr result (λ error. IfFieldMemory error (IsOk (entry_at bytes.now))) }
{
    let (caller, rest) = u32_at(bytes)?;
    let (ordinal, rest) = u64_at(rest)?;
    let limits = PairLimits {
        key_max: KEY_MAX,
        value_max: VALUE_MAX,
    };
    let (pair, rest) = read_pair(limits, rest)?;
    let Ok(key) = Key::try_new(alloc, pair.key) else {
        return Err(FieldError::Memory);
    };
    let change = owned(alloc, pair.change)?;
    Ok((
        Entry {
            caller,
            ordinal,
            key,
            change,
        },
        rest,
    ))
}

fn entries_after(alloc: Global, count: u32, bytes: &[u8]) -> Result<(Vec<Entry>, &[u8]), FieldError>
    ensures exact { GivesFields (λ x. (x.0.items, x.1.now)) result (entries_at count bytes.now) }
    ensures many { IfOk result (λ x. length x.0.items ≡ count) }
    ensures memory { IfErr result (λ error. IfFieldMemory error (IsOk (entry_at bytes.now))) }
{
    let mut entries = Vec::new(alloc);
    let mut rest = bytes;
    for place in 0..count {
        match entry_of(alloc, rest) {
            Ok((entry, after)) => {
                let Ok(()) = entries.push(entry) else {
                    return Err(FieldError::Memory);
                };
                rest = after;
            }
            Err(error) => return Err(error),
        }
    }
    Ok((entries, rest))
}

#[tactic(auto, unfolding(crate::specs::Payloads::entries_fields, crate::specs::Payloads::first_entry))]
fn entries_from(alloc: Global, bytes: &[u8]) -> Result<(u64, Vec<Entry>), FieldError>
    ensures exact { GivesFields (λ x. record { first = x.0; entries = x.1.items }) result (entries_fields bytes.now) }
    ensures within { IfOk result (λ x. x.0 + length x.1.items ≤ NUMBER_MAX) }
    ensures memory { IfErr result (λ error. IfFieldMemory error (IsOk (first_entry bytes.now))) }
{
    let rest = kind_of(ENTRIES_KIND, bytes)?;
    let (first, rest) = u64_at(rest)?;
    let (count, after) = u32_at(rest)?;
    if count == 0 {
        return Err(FieldError::Bad(rest.len()));
    }
    if first > NUMBER_MAX || NUMBER_MAX - first < count as u64 {
        return Err(FieldError::Bad(rest.len()));
    }
    let (entries, after) = entries_after(alloc, count, after)?;
    if !after.is_empty() {
        return Err(FieldError::Bad(after.len()));
    }
    Ok((first, entries))
}

/// The entries of a payload, and the number of the first. Memory is asked for only once a whole entry was found in the
/// bytes.
pub fn decode_entries(alloc: Global, payload: &[u8]) -> Result<(u64, Vec<Entry>), EntryError>
    ensures exact { GivesPayload (λ x. record { first = x.0; entries = x.1.items }) result (entries_of payload.now) }
    ensures within { IfOk result (λ x. x.0 + length x.1.items ≤ NUMBER_MAX) }
    ensures memory { IfErr result (λ error. IfMemory error (IsOk (first_entry payload.now))) }
{
    match entries_from(alloc, payload) {
        Ok(found) => Ok(found),
        Err(FieldError::Bad(left)) => Err(EntryError::BadEntry {
            at: payload.len().saturating_sub(left),
        }),
        Err(FieldError::Memory) => Err(EntryError::Memory),
    }
}
