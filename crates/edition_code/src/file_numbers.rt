//! The numbers of the files that were read, to find one that stands twice.
ghost use Rattle.std.specs.Prelude.{◌≡◌, ◌++◌, ◌∷◌, ◌<◌, ◌≤◌, [], not, length, IfOk, OnOk, OnErr};
ghost use Rattle.edition_code.specs.Told.{is_marked, Marks, KeepsMarks};
ghost use Rattle.edition_code.specs.Editions.{is_in};

use crate::told_numbers::ToldNumbers;
use rdb_base::NoMemory;
use std::alloc::{AllocError, Global};
use std::collections::BTreeSet;
use std::marker::Model;

/// Numbers below `most` are marked, each at its place; the others are kept in a set.
#[derive(Drop)]
pub(crate) struct FileNumbers {
    most: usize,
    marks: Vec<bool>,
    others: BTreeSet<u64>,
    told: ToldNumbers,
}

impl Model for FileNumbers {
    ghost use Rattle.std.specs.Prelude.{ℕ, List};
    ghost use Rattle.edition_code.specs.Told.{IsKept};

    ghost Value = { List ℕ };

    ghost view = { λ f. f.told };

    ghost invariant = { λ f. IsKept f.most f.marks.items f.others f.told };
}

/// Room for marks of all numbers below `most`.
fn make_room(marks: &mut Vec<bool>, most: usize) -> Result<(), NoMemory>
    ensures long { OnOk result (most ≤ length marks.new.items) }
    ensures kept { KeepsMarks marks.old.items marks.new.items }
{
    if marks.len() < most {
        marks.resize(most, false)?;
    }
    Ok(())
}

/// Marks a number below `most`. The answer tells whether it was not marked.
fn mark(marks: &mut Vec<bool>, most: usize, number: usize) -> Result<bool, NoMemory>
    requires { number < most }
    ensures new { IfOk result (λ new. new ≡ not (is_marked marks.old.items number)) }
    ensures marked { OnOk result (Marks marks.old.items marks.new.items number) }
    ensures refused { OnErr result (KeepsMarks marks.old.items marks.new.items) }
{
    make_room(marks, most)?;
    let new = !marks[number];
    marks[number] = true;
    Ok(new)
}

impl FileNumbers {
    /// No number yet. Marks will take `most` bytes of memory once there is one.
    pub(crate) fn new(alloc: Global, most: usize) -> FileNumbers
        ensures { result ≡ [] }
    {
        FileNumbers {
            most,
            marks: Vec::new(alloc),
            others: BTreeSet::new(alloc),
            told: ToldNumbers::new(),
        }
    }

    /// One number more. The answer tells whether it is none of those before.
    pub(crate) fn add(&mut self, number: u64) -> Result<bool, NoMemory>
        ensures new { IfOk result (λ new. new ≡ not (is_in number self.old)) }
        ensures added { IfOk result (λ new. self.new ≡ self.old ++ number ∷ []) }
    {
        if number < self.most as u64 {
            let new = mark(&mut self.marks, self.most, number as usize)?;
            self.told.push(number);
            return Ok(new);
        }
        let Ok(new) = self.others.insert(number) else {
            return Err(AllocError);
        };
        self.told.push(number);
        Ok(new)
    }
}
