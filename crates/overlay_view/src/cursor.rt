ghost use Rattle.std.specs.Prelude.{◌≡◌, ◌<◌, false, drop, length, map, slice_get, Some, IfOk, IsOk, OnErr};
ghost use Rattle.rdb_base.specs.Pages.{rows_from};
ghost use Rattle.remix_view.specs.Spots.{NextOf};
ghost use Rattle.partition_set.specs.Partitions.{set_level};
ghost use Rattle.overlay_view.specs.Cursors.{IsCursor, GoesOn, LendsFirst, CopiesFirst, rows_over, rows_left, pairs_left, head_of, head_at, deletes};
ghost use Rattle.overlay_view.specs.Placements.{IsPlaced};

use crate::head::Head;
use crate::lent_row::LentRow;
use crate::older::{Older, next_older};
use crate::placement::order_of_row;
use crate::reads::{copied_newer, copied_older, lent_newer, lent_older};
use crate::upper::Upper;
use partition_set::PartitionSet;
use rdb_base::{NoMemory, Row, Steps, place_of};
use remix_seek::Runs;
use remix_view::{Spot, Walk};
use std::alloc::Global;
use std::cmp::Ordering;
use std::marker::Brand;
use std::sync::ledger::{Blank, Ledger};

/// A place of a listing. It stands at the next row, or at the end: old versions, deletions and hidden rows are passed
/// when it moves, not when it is asked.
///
/// A call of it takes the newer rows and the set over which it was sought.
#[derive(Clone, Copy, Debug)]
pub struct Cursor {
    /// The first newer row that is left.
    at: usize,
    /// Where the older side stands.
    older: Older,
}

impl Cursor {
    /// The cursor before the first row whose key is not below this one. It takes no memory and is always Ok.
    pub fn seek<T: Runs + Drop, L: Ledger>(
        upper: &Upper,
        parts: &PartitionSet<T>,
        key: &[u8],
        steps: &mut Steps<L>,
    ) -> Result<Cursor, NoMemory>
        requires { IsPlaced T.run parts.now upper.now }
        ensures rows { IfOk result (λ cursor. rows_left T.run parts.now upper.now cursor
            ≡ rows_from (rows_over upper.now.rows (set_level T.run parts.now)) key.now) }
        ensures stands { IfOk result (λ cursor. IsCursor T.run parts.now upper.now cursor) }
        ensures ok { IsOk result }
    {
        let at = place_of(upper.rows(), key, steps);
        let number = parts.of_key(key);
        let part = parts.part(number);
        let (segment, place) = part.remix.seek(part.runs.as_slice(), key, steps)?;
        let older = next_older(parts, number, Walk::at(segment, place));
        let mut cursor = Cursor { at, older };
        cursor.settle(upper, parts);
        Ok(cursor)
    }

    /// The next row, of its own. None exactly where none is left. If it runs out of memory, the cursor stays.
    pub fn next<T: Runs + Drop>(
        &mut self,
        alloc: Global,
        upper: &Upper,
        parts: &PartitionSet<T>,
    ) -> Result<Option<Row>, NoMemory>
        requires placed { IsPlaced T.run parts.now upper.now }
        requires sought { IsCursor T.run parts.now upper.now self.old }
        ensures next { IfOk result (λ row. NextOf (rows_left T.run parts.now upper.now self.old) row
            (rows_left T.run parts.now upper.now self.new)) }
        ensures same { OnErr result (self.new ≡ self.old) }
        ensures stands { IsCursor T.run parts.now upper.now self.new }
    {
        match self.copied::<T, Brand>(alloc, upper, parts, Blank::new(1))? {
            None => Ok(None),
            Some(row) => {
                self.pass(upper, parts);
                Ok(Some(row))
            }
        }
    }

    /// The next row, lent. None exactly where none is left. It takes no memory.
    pub fn peek<'a, T: Runs + Drop>(
        &self,
        upper: &'a Upper,
        parts: &'a PartitionSet<T>,
    ) -> Option<LentRow<'a>>
        requires placed { IsPlaced T.run parts.now upper.now }
        requires sought { IsCursor T.run parts.now upper.now self.now }
        ensures { LendsFirst (rows_left T.run parts.now upper.now self.now) result }
    {
        self.lent::<T, Brand>(upper, parts, Blank::new(1))
    }

    /// Goes past the next row, if one is left. It takes no memory.
    pub fn pass<T: Runs + Drop>(&mut self, upper: &Upper, parts: &PartitionSet<T>)
        requires placed { IsPlaced T.run parts.now upper.now }
        requires sought { IsCursor T.run parts.now upper.now self.old }
        ensures rows { rows_left T.run parts.now upper.now self.new
            ≡ drop 1 (rows_left T.run parts.now upper.now self.old) }
        ensures stands { IsCursor T.run parts.now upper.now self.new }
    {
        self.step(upper, parts);
        self.settle(upper, parts);
    }

    /// Passes deletions among the newer rows, with what they hide.
    fn settle<T: Runs + Drop>(&mut self, upper: &Upper, parts: &PartitionSet<T>)
        requires placed { IsPlaced T.run parts.now upper.now }
        requires goes_on { GoesOn T.run parts.now self.old }
        ensures rows { rows_left T.run parts.now upper.now self.new ≡ rows_left T.run parts.now upper.now self.old }
        ensures stands { IsCursor T.run parts.now upper.now self.new }
    {
        'deletions: while self.is_at_deletion(upper) {
            self.step(upper, parts);
        }
    }

    /// Goes past the pair where it stands. A newer row takes with it what it hides.
    fn step<T: Runs + Drop>(&mut self, upper: &Upper, parts: &PartitionSet<T>)
        requires placed { IsPlaced T.run parts.now upper.now }
        requires goes_on { GoesOn T.run parts.now self.old }
        ensures pairs { pairs_left T.run parts.now upper.now self.new
            ≡ drop 1 (pairs_left T.run parts.now upper.now self.old) }
        ensures goes_on { GoesOn T.run parts.now self.new }
    {
        match self.head(upper) {
            Head::Newer => self.at = upper.after(self.at),
            Head::Both => {
                self.at = upper.after(self.at);
                self.older = next_older(parts, self.older.place.part, self.older.after);
            }
            Head::Older(_) => {
                self.older = next_older(parts, self.older.place.part, self.older.after);
            }
            Head::End => {}
        }
    }

    /// What it stands at.
    fn head(&self, upper: &Upper) -> Head
        ensures { result ≡ head_at upper.now self.now }
    {
        if self.at < upper.len() {
            match self.older.spot {
                None => Head::Newer,
                Some(spot) => self.lower_of(upper, spot),
            }
        } else {
            match self.older.spot {
                None => Head::End,
                Some(spot) => Head::Older(spot),
            }
        }
    }

    /// What comes first, where both sides have something left.
    fn lower_of(&self, upper: &Upper, spot: Spot) -> Head
        requires { self.now.at < length upper.now.placements }
        ensures { result ≡ head_of (slice_get upper.now.placements self.now.at) self.now.older (Some spot) }
    {
        match order_of_row(upper.placement(self.at), self.older.place) {
            Ordering::Less => Head::Newer,
            Ordering::Equal => Head::Both,
            Ordering::Greater => Head::Older(spot),
        }
    }

    /// Whether it stands at a deletion of the newer rows.
    fn is_at_deletion(&self, upper: &Upper) -> bool
        ensures { result ≡ deletes upper.now.rows self.now.at (head_at upper.now self.now) }
    {
        match self.head(upper) {
            Head::Newer | Head::Both => upper.is_deleted(self.at),
            Head::Older(_) | Head::End => false,
        }
    }

    /// The row where it stands, lent. The ledger of the steps is the blank's.
    fn lent<'a, T: Runs + Drop, L: Ledger>(
        &self,
        upper: &'a Upper,
        parts: &'a PartitionSet<T>,
        blank: Blank,
    ) -> Option<LentRow<'a>>
        requires placed { IsPlaced T.run parts.now upper.now }
        requires sought { IsCursor T.run parts.now upper.now self.now }
        requires name { blank.name ≡ L.name }
        requires parts { blank.parts ≡ L.parts }
        requires some { 0 < blank.parts }
        ensures { LendsFirst (rows_left T.run parts.now upper.now self.now) result }
    {
        let mut steps = Steps::<L>::begin(blank);
        match self.head(upper) {
            Head::Newer => lent_newer(upper.row(self.at)),
            Head::Both => lent_newer(upper.row(self.at)),
            Head::Older(spot) => {
                let part = parts.part(self.older.place.part);
                lent_older(part.runs.as_slice(), spot, &mut steps)
            }
            Head::End => None,
        }
    }

    /// The row where it stands, of its own. The ledger of the steps is the blank's.
    fn copied<T: Runs + Drop, L: Ledger>(
        &self,
        alloc: Global,
        upper: &Upper,
        parts: &PartitionSet<T>,
        blank: Blank,
    ) -> Result<Option<Row>, NoMemory>
        requires placed { IsPlaced T.run parts.now upper.now }
        requires sought { IsCursor T.run parts.now upper.now self.now }
        requires name { blank.name ≡ L.name }
        requires parts { blank.parts ≡ L.parts }
        requires some { 0 < blank.parts }
        ensures { IfOk result (λ row. CopiesFirst (rows_left T.run parts.now upper.now self.now) row) }
    {
        let mut steps = Steps::<L>::begin(blank);
        match self.head(upper) {
            Head::Newer => copied_newer(alloc, upper.row(self.at)),
            Head::Both => copied_newer(alloc, upper.row(self.at)),
            Head::Older(spot) => {
                let part = parts.part(self.older.place.part);
                copied_older(alloc, part.runs.as_slice(), spot, &mut steps)
            }
            Head::End => Ok(None),
        }
    }
}
