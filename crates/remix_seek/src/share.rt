ghost use Rattle.std.specs.Prelude.{◌≡◌, IfOk};

use rdb_base::NoMemory;
use std::alloc::Global;

/// A value that several owners can have. What is large in it is shared and not copied, where the type's own words
/// say so.
pub trait Share: Sized {
    /// An equal value.
    fn share(&self, alloc: Global) -> Result<Self, NoMemory>
        ensures { IfOk result (λ shared. shared ≡ self.now) };
}
