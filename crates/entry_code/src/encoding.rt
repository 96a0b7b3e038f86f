ghost use Rattle.std.specs.Prelude.{◌≡◌, ◌+◌, ◌^◌, ◌<◌, ◌≤◌, ◌++◌, ◌∷◌, [], None, length, drop, vec_capacity, IfOk, IfSome, OnOk, IsOk};
ghost use Rattle.entry_code.specs.Payloads.{header_payload, entries_payload, entries_head, entry_numbers, entry_field};
ghost use Rattle.entry_code.specs.Laws.{IsEntryWithin};
ghost use Rattle.entry_code.specs.declared.format.TheConstants.{ENTRIES_HEAD, ENTRY_MAX, ENTRY_NUMBERS};
ghost use Rattle.rdb_base.specs.PairFields.{IsChangeWithin};

use crate::format::{
    ENTRIES_HEAD, ENTRIES_KIND, ENTRY_MAX, ENTRY_NUMBERS, HEADER_KIND, HEADER_LEN,
};
use rdb_base::{Change, Entry, NoMemory, VALUE_MAX, size, write_pair};
use std::alloc::Global;

/// The head of an entries' payload: its kind, the number of the first and how many they are.
pub(crate) fn put_head(bytes: &mut [u8], first: u64, count: u32)
    requires { ENTRIES_HEAD ≤ length bytes.old }
    ensures { bytes.new ≡ entries_head first count ++ drop ENTRIES_HEAD bytes.old }
{
    bytes[0] = ENTRIES_KIND;
    bytes[1..9].copy_from_slice(&first.to_be_bytes());
    bytes[9..ENTRIES_HEAD].copy_from_slice(&count.to_be_bytes());
}

/// How many bytes the entry's field has.
#[tactic(auto, unfolding(crate::specs::Payloads::entry_field))]
pub fn entry_len(entry: &Entry) -> usize
    ensures length { result ≡ length (entry_field entry.now) }
    ensures most { result ≤ ENTRY_MAX }
{
    ENTRY_NUMBERS + size(&entry.key, &entry.change) as usize
}

fn add_numbers(out: &mut Vec<u8>, caller: u32, ordinal: u64) -> Result<(), NoMemory>
    ensures ok { OnOk result (out.new.items ≡ out.old.items ++ entry_numbers caller ordinal) }
    ensures room { length out.old.items + ENTRY_NUMBERS ≤ vec_capacity out.old → IsOk result }
    ensures capacity { vec_capacity out.old ≤ vec_capacity out.new }
{
    out.extend_from_slice(&caller.to_be_bytes())?;
    out.extend_from_slice(&ordinal.to_be_bytes())?;
    Ok(())
}

/// Adds the entry's field. With room for it, nothing is refused.
#[tactic(auto, unfolding(crate::specs::Payloads::entry_field))]
pub(crate) fn add_entry(out: &mut Vec<u8>, entry: &Entry) -> Result<(), NoMemory>
    ensures ok { OnOk result (out.new.items ≡ out.old.items ++ entry_field entry.now) }
    ensures room { length out.old.items + length (entry_field entry.now) ≤ vec_capacity out.old → IsOk result }
    ensures capacity { vec_capacity out.old ≤ vec_capacity out.new }
{
    add_numbers(out, entry.caller, entry.ordinal)?;
    write_pair(out, &entry.key, &entry.change)?;
    Ok(())
}

/// The same, where there is room.
pub(crate) fn add_reserved(out: &mut Vec<u8>, entry: &Entry)
    requires { length out.old.items + length (entry_field entry.now) ≤ vec_capacity out.old }
    ensures items { out.new.items ≡ out.old.items ++ entry_field entry.now }
    ensures most { length (entry_field entry.now) ≤ ENTRY_MAX }
    ensures capacity { vec_capacity out.old ≤ vec_capacity out.new }
{
    let _ = entry_len(entry);
    add_entry(out, entry).unwrap();
}

/// An entry is within the limits. It does nothing.
pub(crate) fn tell_limits(entry: &Entry)
    ensures { IsEntryWithin entry.now }
{
    let _caller = entry.caller;
    let _ordinal = entry.ordinal;
    let _key = entry.key.as_bytes();
    tell_change(&entry.change);
}

fn tell_change(change: &Change)
    ensures { IsChangeWithin VALUE_MAX change.now }
{
    match change {
        Change::Put(value) => {
            let _ = value.as_bytes();
        }
        Change::Del => {}
    }
}

/// The payload of a header.
pub fn encode_header(alloc: Global, segment: u64, first: u64) -> Result<Vec<u8>, NoMemory>
    ensures { IfOk result (λ payload. payload.items ≡ header_payload segment first) }
{
    let mut payload = Vec::with_capacity(alloc, HEADER_LEN)?;
    payload.push(HEADER_KIND)?;
    payload.extend_from_slice(&segment.to_be_bytes())?;
    payload.extend_from_slice(&first.to_be_bytes())?;
    Ok(payload)
}

fn head(alloc: Global, first: u64, count: u32) -> Result<Vec<u8>, NoMemory>
    ensures { IfOk result (λ payload. payload.items ≡ entries_head first count) }
{
    let mut payload = Vec::new(alloc);
    payload.push(ENTRIES_KIND)?;
    payload.extend_from_slice(&first.to_be_bytes())?;
    payload.extend_from_slice(&count.to_be_bytes())?;
    Ok(payload)
}

/// The first entry, and those after it.
fn split(entries: &[Entry]) -> Option<(&Entry, &[Entry])>
    ensures some { IfSome result (λ x. entries.now ≡ x.0.now ∷ x.1.now) }
    ensures none { result ≡ None → entries.now ≡ [] }
{
    match entries {
        [entry, rest @ ..] => Some((entry, rest)),
        [] => None,
    }
}

/// The payload of these entries, of which the first has this number.
pub fn encode_entries(alloc: Global, first: u64, entries: &[Entry]) -> Result<Vec<u8>, NoMemory>
    requires { length entries.now < 2 ^ 32 }
    ensures { IfOk result (λ payload. payload.items ≡ entries_payload first entries.now) }
{
    let mut payload = head(alloc, first, entries.len() as u32)?;
    let mut rest = entries;
    while let Some((entry, more)) = split(rest) {
        add_entry(&mut payload, entry)?;
        rest = more;
    }
    Ok(payload)
}
