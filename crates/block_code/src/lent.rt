ghost use Rattle.std.specs.Prelude.{◌≡◌, ◌<◌, Some, length, slice_get, IfOk};
ghost use Rattle.rdb_base.specs.PairFields.{lent_change};
ghost use Rattle.block_code.specs.Answers.{pair_lent};
ghost use Rattle.block_code.specs.Reading.{pairs_of};

use crate::fields::after;
use crate::format::{FIRST_LIMITS, NUMBER_LEN};
use rdb_base::fields::u16_at;
use rdb_base::{Change, Key, LentChange, NoMemory, Pair, PairField, Value, read_pair};
use std::alloc::{AllocError, Global};

/// The pair of a whole block at this index, lent. It takes no memory, and reads one offset and that pair alone.
pub fn lent_pair(block: &[u8], index: u16) -> PairField<'_>
    requires { index < length (pairs_of block.now) }
    ensures { slice_get (pairs_of block.now) index ≡ Some (pair_lent result) }
{
    let place = NUMBER_LEN + NUMBER_LEN * index as usize;
    let (offset, _) = u16_at(after(place, block)).unwrap();
    let (pair, _) = read_pair(FIRST_LIMITS, after(offset as usize, block)).unwrap();
    pair
}

fn owned(alloc: Global, change: LentChange<'_>) -> Result<Change, NoMemory>
    ensures { IfOk result (λ owned. owned ≡ lent_change change.entry) }
{
    match change {
        LentChange::Put(value) => match Value::try_new(alloc, value) {
            Ok(value) => Ok(Change::Put(value)),
            Err(_) => Err(AllocError),
        },
        LentChange::Del => Ok(Change::Del),
    }
}

/// A copy of the pair of a whole block at this index.
pub fn pair_at(alloc: Global, block: &[u8], index: u16) -> Result<Pair, NoMemory>
    requires { index < length (pairs_of block.now) }
    ensures { IfOk result (λ pair. slice_get (pairs_of block.now) index ≡ Some pair) }
{
    let lent = lent_pair(block, index);
    let Ok(key) = Key::try_new(alloc, lent.key) else {
        return Err(AllocError);
    };
    let change = owned(alloc, lent.change)?;
    Ok(Pair { key, change })
}
