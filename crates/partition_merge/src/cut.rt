ghost use Rattle.std.specs.Prelude.{◌≡◌, ◌≤◌, ◌+◌, ◌++◌, nat_le, false, [], ◌∷◌, IfOk, OnOk};
ghost use Rattle.rdb_base.specs.Runs.{AreBelow, pair_size, sizes};
ghost use Rattle.rdb_base.specs.declared.limits.TheConstants.{PAIR_MAX};
ghost use Rattle.partition_plan.specs.declared.limits.TheConstants.{PART_MAX};
ghost use Rattle.partition_merge.specs.Pieces.{cut_with, open_piece, pieces_in, some_run};

use crate::piece::Piece;
use partition_plan::PART_MAX;
use rdb_base::{NoMemory, Pair, SortedRun, size};
use std::alloc::Global;
use std::marker::Model;
use std::mem::replace;

/// Rows that are being cut into parts: the pieces of the closed parts, and the open part.
#[derive(Drop)]
pub(crate) struct Cut {
    closed: Vec<Piece>,
    low: Vec<u8>,
    part: SortedRun,
}

impl Model for Cut {
    ghost use Rattle.partition_merge.specs.Pieces.{CutState};

    ghost Value = { CutState };

    ghost view = { λ c. record {
      closed = c.closed.items;
      low = c.low.items;
      part = c.part;
    } };

    ghost invariant = { λ c. Unit {0} };
}

impl Cut {
    /// No row yet: the first part is open, from this bound on.
    pub(crate) fn begin(alloc: Global, low: &[u8]) -> Result<Cut, NoMemory>
        ensures { IfOk result (λ cut. cut ≡ record { closed = []; low = low.now; part = [] }) }
    {
        Ok(Cut {
            closed: Vec::new(alloc),
            low: Vec::from_slice(alloc, low)?,
            part: SortedRun::new(alloc),
        })
    }

    /// One row more. If it would take the open part above the most, it closes it and begins the next one.
    pub(crate) fn add(&mut self, alloc: Global, pair: Pair) -> Result<(), NoMemory>
        requires above { AreBelow self.old.part pair.key }
        ensures ok { OnOk result (self.new ≡ cut_with self.old pair) }
        ensures small { pair_size pair ≤ PAIR_MAX }
    {
        if self.has_room(&pair) {
            self.part.push(pair)?;
            Ok(())
        } else {
            self.begin_part(alloc, pair)
        }
    }

    /// Whether the open part with this row stays within the most.
    fn has_room(&self, pair: &Pair) -> bool
        ensures room { result ≡ nat_le (sizes self.now.part + pair_size pair.now) PART_MAX }
        ensures small { pair_size pair.now ≤ PAIR_MAX }
    {
        let more = size(&pair.key, &pair.change) as u128;
        self.part.size().saturating_add(more) <= PART_MAX as u128
    }

    /// Closes the open part, and begins the next one with this row. Its key is the bound.
    fn begin_part(&mut self, alloc: Global, pair: Pair) -> Result<(), NoMemory>
        ensures ok { OnOk result (self.new ≡ record {
          closed = self.old.closed ++ open_piece self.old ∷ [];
          low = pair.key;
          part = pair ∷ [];
        }) }
    {
        let bound = Vec::from_slice(alloc, pair.key.as_bytes())?;
        let mut next = SortedRun::new(alloc);
        next.push(pair)?;
        let part = replace(&mut self.part, next);
        let low = replace(&mut self.low, bound);
        self.closed.push(part_of(low, part))?;
        Ok(())
    }

    /// The pieces of all parts.
    pub(crate) fn end(self) -> Result<Vec<Piece>, NoMemory>
        ensures { IfOk result (λ pieces. pieces.items ≡ pieces_in self) }
    {
        let mut pieces = self.closed;
        pieces.push(part_of(self.low, self.part))?;
        Ok(pieces)
    }
}

/// The piece of a part. A part without rows has no run.
fn part_of(low: Vec<u8>, run: SortedRun) -> Piece
    ensures { result ≡ record { low = low.items; keeps_old = false; run = some_run run } }
{
    Piece {
        low,
        keeps_old: false,
        run: run_of(run),
    }
}

/// The run, where it has a pair.
pub(crate) fn run_of(run: SortedRun) -> Option<SortedRun>
    ensures { result ≡ some_run run }
{
    if run.len() > 0 {
        Some(fitted(run))
    } else {
        None
    }
}

/// The same run, which keeps no room to spare.
fn fitted(run: SortedRun) -> SortedRun
    ensures { result ≡ run }
{
    let mut pairs = run.into_pairs();
    pairs.shrink_to_fit();
    SortedRun::of(pairs)
}
