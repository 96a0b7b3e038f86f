//! An edition, spelled as a payload.
ghost use Rattle.std.specs.Prelude.{◌≡◌, ◌+◌, ◌*◌, ◌^◌, ◌<◌, ◌≤◌, ◌++◌, ◌∷◌, [], None, Ok, length, vec_capacity, IfOk, IfSome};
ghost use Rattle.std.specs.Int.{w8, w16, w32, w64, to_be_bytes};
ghost use Rattle.std.specs.List.{AllByRecursion};
ghost use Rattle.edition_code.specs.declared.format.TheConstants.{EDITION_MAX, FILE_LEN, HEAD_LEN, PART_HEAD, PART_MAX};
ghost use Rattle.edition_code.specs.Editions.{IsEdition, edition_bytes, edition_head, part_field, part_fields, part_head};
ghost use Rattle.edition_code.specs.Editions.{file_field, run_field, run_fields, index_field};
ghost use Rattle.edition_code.specs.Laws.{IsHeld, IsRunHeld, IsIndexHeld, IsPartHeld, IsPartWithin, part_size, parts_size};
ghost use Rattle.edition_code.specs.Reading.{edition_of};

use crate::edition::Edition;
use crate::edition_part::EditionPart;
use crate::format::{DIGEST_LEN, FILE_LEN, HEAD_LEN, PART_HEAD, PART_LEN};
use crate::index_field::IndexField;
use crate::run_field::RunField;
use crate::split::split;
use rdb_base::NoMemory;
use std::alloc::Global;

/// How many bytes a partition has.
fn part_len(part: &EditionPart) -> usize
    requires { IsPartWithin part.now }
    ensures len { result ≡ part_size part.now }
    ensures most { result ≤ PART_MAX }
{
    PART_LEN + part.low.len() + FILE_LEN * part.runs.len()
}

/// How many bytes these partitions have together.
fn parts_len(parts: &[EditionPart]) -> usize
    requires within { AllByRecursion IsPartWithin parts.now }
    requires few { length parts.now ≤ 2 ^ 16 }
    ensures len { result ≡ parts_size parts.now }
    ensures most { result ≤ PART_MAX * length parts.now }
{
    let mut sum = 0;
    let mut rest = parts;
    'parts: while let Some((part, more)) = split(rest) {
        sum += part_len(part);
        rest = more;
    }
    sum
}

/// Adds a number of eight bytes, where there is room.
fn add_number(out: &mut Vec<u8>, number: u64)
    requires { length out.old.items + 8 ≤ vec_capacity out.old }
    ensures items { out.new.items ≡ out.old.items ++ to_be_bytes w64 number }
    ensures len { length out.new.items ≡ length out.old.items + 8 }
    ensures capacity { vec_capacity out.old ≤ vec_capacity out.new }
{
    out.extend_from_slice(&number.to_be_bytes()).unwrap();
}

/// Adds a number of four bytes, where there is room.
fn add_count(out: &mut Vec<u8>, number: u32)
    requires { length out.old.items + 4 ≤ vec_capacity out.old }
    ensures items { out.new.items ≡ out.old.items ++ to_be_bytes w32 number }
    ensures len { length out.new.items ≡ length out.old.items + 4 }
    ensures capacity { vec_capacity out.old ≤ vec_capacity out.new }
{
    out.extend_from_slice(&number.to_be_bytes()).unwrap();
}

/// Adds a low bound after its length, where there is room.
fn add_low(out: &mut Vec<u8>, low: &[u8])
    requires room { length out.old.items + 2 + length low.now ≤ vec_capacity out.old }
    requires short { length low.now < 2 ^ 16 }
    ensures items { out.new.items ≡ out.old.items ++ (to_be_bytes w16 (length low.now) ++ low.now) }
    ensures len { length out.new.items ≡ length out.old.items + 2 + length low.now }
    ensures capacity { vec_capacity out.old ≤ vec_capacity out.new }
{
    out.extend_from_slice(&(low.len() as u16).to_be_bytes())
        .unwrap();
    out.extend_from_slice(low).unwrap();
}

/// Adds a number of one byte, where there is room.
fn add_byte(out: &mut Vec<u8>, number: u8)
    requires { length out.old.items + 1 ≤ vec_capacity out.old }
    ensures items { out.new.items ≡ out.old.items ++ to_be_bytes w8 number }
    ensures len { length out.new.items ≡ length out.old.items + 1 }
    ensures capacity { vec_capacity out.old ≤ vec_capacity out.new }
{
    out.extend_from_slice(&number.to_be_bytes()).unwrap();
}

/// Adds a file, where there is room.
fn add_file(out: &mut Vec<u8>, number: u64, size: u64, digest: &[u8; DIGEST_LEN])
    requires { length out.old.items + FILE_LEN ≤ vec_capacity out.old }
    ensures items { out.new.items ≡ out.old.items ++ file_field number size digest.now }
    ensures len { length out.new.items ≡ length out.old.items + FILE_LEN }
    ensures capacity { vec_capacity out.old ≤ vec_capacity out.new }
{
    add_number(out, number);
    add_number(out, size);
    out.extend_from_slice(digest).unwrap();
}

/// Adds the file of a run, where there is room.
#[tactic(auto, unfolding(crate::specs::Editions::run_field))]
fn add_run(out: &mut Vec<u8>, run: &RunField)
    requires { length out.old.items + FILE_LEN ≤ vec_capacity out.old }
    ensures items { out.new.items ≡ out.old.items ++ run_field run.now }
    ensures held { IsRunHeld run.now }
    ensures len { length out.new.items ≡ length out.old.items + FILE_LEN }
    ensures capacity { vec_capacity out.old ≤ vec_capacity out.new }
{
    add_file(out, run.number, run.length, &run.digest);
}

/// Adds the files of runs, where there is room.
fn add_runs(out: &mut Vec<u8>, runs: &[RunField])
    requires { length out.old.items + FILE_LEN * length runs.now ≤ vec_capacity out.old }
    ensures items { out.new.items ≡ out.old.items ++ run_fields runs.now }
    ensures held { AllByRecursion IsRunHeld runs.now }
    ensures len { length out.new.items ≡ length out.old.items + FILE_LEN * length runs.now }
    ensures capacity { vec_capacity out.old ≤ vec_capacity out.new }
{
    let mut rest = runs;
    'runs: while let Some((one, more)) = split(rest) {
        add_run(out, one);
        rest = more;
    }
}

/// Adds the file of an index, where there is room.
#[tactic(auto, unfolding(crate::specs::Editions::index_field))]
fn add_index(out: &mut Vec<u8>, index: &Option<IndexField>)
    requires { length out.old.items + FILE_LEN ≤ vec_capacity out.old }
    ensures items { out.new.items ≡ out.old.items ++ index_field index.now }
    ensures held { IsIndexHeld index.now }
    ensures len { length out.new.items ≡ length out.old.items + FILE_LEN }
    ensures capacity { vec_capacity out.old ≤ vec_capacity out.new }
{
    match index {
        Some(index) => add_file(out, index.number, index.length, &index.digest),
        None => out.extend_from_slice(&[0; FILE_LEN]).unwrap(),
    }
}

/// Adds the head of a partition, where there is room.
#[tactic(auto, unfolding(crate::specs::Editions::part_head))]
fn add_head(out: &mut Vec<u8>, low: &[u8], base: u64, runs: u8)
    requires room { length out.old.items + PART_HEAD + length low.now ≤ vec_capacity out.old }
    requires short { length low.now < 2 ^ 16 }
    ensures items { out.new.items ≡ out.old.items ++ part_head low.now base runs }
    ensures len { length out.new.items ≡ length out.old.items + PART_HEAD + length low.now }
    ensures capacity { vec_capacity out.old ≤ vec_capacity out.new }
{
    add_low(out, low);
    add_number(out, base);
    add_byte(out, runs);
}

/// Adds a partition, where there is room.
#[tactic(auto, unfolding(crate::specs::Editions::part_field))]
fn add_part(out: &mut Vec<u8>, part: &EditionPart)
    requires within { IsPartWithin part.now }
    requires room { length out.old.items + part_size part.now ≤ vec_capacity out.old }
    ensures items { out.new.items ≡ out.old.items ++ part_field part.now }
    ensures held { IsPartHeld part.now }
    ensures len { length out.new.items ≡ length out.old.items + part_size part.now }
    ensures capacity { vec_capacity out.old ≤ vec_capacity out.new }
{
    add_head(out, part.low.as_slice(), part.base, part.runs.len() as u8);
    add_runs(out, part.runs.as_slice());
    add_index(out, &part.index);
}

/// Adds partitions, where there is room.
fn add_parts(out: &mut Vec<u8>, parts: &[EditionPart])
    requires within { AllByRecursion IsPartWithin parts.now }
    requires room { length out.old.items + parts_size parts.now ≤ vec_capacity out.old }
    ensures items { out.new.items ≡ out.old.items ++ part_fields parts.now }
    ensures held { AllByRecursion IsPartHeld parts.now }
    ensures len { length out.new.items ≡ length out.old.items + parts_size parts.now }
{
    let mut rest = parts;
    'parts: while let Some((part, more)) = split(rest) {
        add_part(out, part);
        rest = more;
    }
}

/// Adds an edition's fields before its partitions, where there is room.
#[tactic(auto, unfolding(crate::specs::Editions::edition_head))]
fn add_edition_head(out: &mut Vec<u8>, number: u64, next: u64, first: u64, count: u32)
    requires { length out.old.items + HEAD_LEN ≤ vec_capacity out.old }
    ensures items { out.new.items ≡ out.old.items ++ edition_head number next first count }
    ensures held { (next < 2 ^ 64) × (first < 2 ^ 64) }
    ensures len { length out.new.items ≡ length out.old.items + HEAD_LEN }
    ensures capacity { vec_capacity out.old ≤ vec_capacity out.new }
{
    add_number(out, number);
    add_number(out, next);
    add_number(out, first);
    add_count(out, count);
}

/// The payload of an edition, whose numbers are such as their types can hold.
#[tactic(auto, unfolding(crate::specs::Editions::edition_bytes))]
fn payload_of(alloc: Global, edition: &Edition) -> Result<Vec<u8>, NoMemory>
    requires { IsEdition edition.now }
    ensures bytes { IfOk result (λ payload. payload.items ≡ edition_bytes edition.now) }
    ensures some { IfOk result (λ payload. 1 ≤ length payload.items) }
    ensures most { IfOk result (λ payload. length payload.items ≤ EDITION_MAX) }
    ensures held { IfOk result (λ payload. IsHeld edition.now) }
{
    let parts = edition.partitions.as_slice();
    let mut payload = Vec::with_capacity(alloc, HEAD_LEN + parts_len(parts))?;
    // From here on nothing is refused.
    add_edition_head(
        &mut payload,
        edition.number,
        edition.next,
        edition.first,
        parts.len() as u32,
    );
    add_parts(&mut payload, parts);
    Ok(payload)
}

/// The payload of an edition. Its room is taken once, as long as the payload is.
pub fn encode_edition(alloc: Global, edition: &Edition) -> Result<Vec<u8>, NoMemory>
    requires { IsEdition edition.now }
    ensures bytes { IfOk result (λ payload. payload.items ≡ edition_bytes edition.now) }
    ensures some { IfOk result (λ payload. 1 ≤ length payload.items) }
    ensures most { IfOk result (λ payload. length payload.items ≤ EDITION_MAX) }
    ensures back { IfOk result (λ payload. edition_of payload.items ≡ Ok edition.now) }
{
    let payload = payload_of(alloc, edition)?;
    Ok(payload)
}
