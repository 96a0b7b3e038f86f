ghost use Rattle.std.specs.Prelude.{◌≡◌, ◌≤◌, length, vec_capacity, IfOk};

use crate::NoMemory;
use std::alloc::{AllocError, Global};

/// A copy that keeps no room beyond its bytes.
///
/// Keys and values are most of what a store keeps, so their room is checked and is part of what holds of every one.
pub(crate) fn exact_copy(alloc: Global, bytes: &[u8]) -> Result<Vec<u8>, NoMemory>
    ensures items { IfOk result (λ copy. copy.items ≡ bytes.now) }
    ensures exact { IfOk result (λ copy. vec_capacity copy ≤ length copy.items) }
{
    let copy = Vec::from_slice(alloc, bytes)?;
    if copy.capacity() > bytes.len() {
        return Err(AllocError);
    }
    Ok(copy)
}
