ghost use Rattle.std.specs.Prelude.{◌≡◌};
ghost use Rattle.partition_merge.specs.Counting.{counted_with};

use partition_plan::PART_MAX;

/// What was counted so far of the rows of a merge. Each number stands still at the greatest one.
#[derive(Clone, Copy)]
pub(crate) struct Counted {
    /// The sizes of the rows, in bytes.
    pub(crate) merged: u64,
    /// The size of the part that is open. It is 0 only before the first row.
    pub(crate) filled: u64,
    /// How many parts there are, the open one among them.
    pub(crate) parts: u32,
}

impl Counted {
    /// No row yet: the open part is the first one.
    pub(crate) fn none() -> Counted
        ensures { result ≡ record { merged = 0; filled = 0; parts = 1 } }
    {
        Counted {
            merged: 0,
            filled: 0,
            parts: 1,
        }
    }

    /// One row more, of so many bytes. If it would take the open part above the most, it opens the next one.
    pub(crate) fn with_row(self, more: u64) -> Counted
        ensures { result ≡ counted_with self more }
    {
        let merged = self.merged.saturating_add(more);
        let filled = self.filled.saturating_add(more);
        if self.filled > 0 && filled > PART_MAX {
            Counted {
                merged,
                filled: more,
                parts: self.parts.saturating_add(1),
            }
        } else {
            Counted {
                merged,
                filled,
                parts: self.parts,
            }
        }
    }
}
