ghost use Rattle.std.specs.Prelude.{◌≡◌, IfOk};
ghost use Rattle.edition_code.specs.Editions.{initial_edition};

use crate::edition_part::{EditionPart, copies};
use rdb_base::NoMemory;
use std::alloc::Global;
use std::marker::Model;

/// Which files are the tables of a store, and from where on its log counts.
#[derive(Debug, Drop)]
pub struct Edition {
    /// The edition's number, from 1 on: of two editions the one with the greater number counts.
    pub number: u64,
    /// The next number to be drawn, for a file or an edition. All numbers that were drawn are below it.
    pub next: u64,
    /// The first live segment of the log.
    pub first: u64,
    /// 1 to 4,096 partitions, their low bounds rising.
    pub partitions: Vec<EditionPart>,
}

impl Model for Edition {
    ghost use Rattle.edition_code.specs.Values.{EditionValue};

    ghost Value = { EditionValue };

    ghost view = { λ e. record { number = e.number; next = e.next; first = e.first; partitions = e.partitions.items } };
}

impl Edition {
    /// The edition of a manifest that has none: number 0, and one partition of all keys, without a run.
    pub fn initial(alloc: Global) -> Result<Edition, NoMemory>
        ensures { IfOk result (λ edition. edition ≡ initial_edition) }
    {
        let mut partitions = Vec::new(alloc);
        partitions.push(EditionPart {
            low: Vec::new(alloc),
            base: 0,
            runs: Vec::new(alloc),
            index: None,
        })?;
        Ok(Edition {
            number: 0,
            next: 1,
            first: 0,
            partitions,
        })
    }

    /// An equal edition.
    pub fn try_copy(&self, alloc: Global) -> Result<Edition, NoMemory>
        ensures { IfOk result (λ copy. copy ≡ self.now) }
    {
        Ok(Edition {
            number: self.number,
            next: self.next,
            first: self.first,
            partitions: copies(alloc, self.partitions.as_slice())?,
        })
    }
}
