ghost use Rattle.std.specs.Prelude.{◌≡◌, ◌==◌, List, ℕ, length, IfOk};
ghost use Rattle.std.specs.Cmp.Lexicographic.{pointwise};
ghost use Rattle.std.specs.Cmp.Rules.{comparing};
ghost use Rattle.std.proofs.Common.{rules};
ghost use Rattle.rdb_base.specs.Lengths.{IsValueLength};
ghost use Rattle.rdb_base.specs.Answers.{ValueAnswer};

use crate::NoMemory;
use crate::exact_copy::exact_copy;
use crate::limits::VALUE_MAX;
use crate::value_error::ValueError;
use std::alloc::Global;
use std::marker::Model;

/// A value: up to `VALUE_MAX` bytes. Contracts see it as the list of its bytes.
#[derive(Debug, Drop)]
pub struct Value {
    bytes: Vec<u8>,
}

impl Model for Value {
    ghost use Rattle.std.specs.Prelude.{ℕ, ◌≤◌, List, length, vec_capacity};
    ghost use Rattle.rdb_base.specs.Lengths.{IsValueLength};

    ghost Value = { List ℕ };

    ghost view = { λ v. v.bytes.items };

    ghost invariant = { λ v. IsValueLength (length v.bytes.items) × (vec_capacity v.bytes ≤ length v.bytes.items) };
}

impl Value {
    /// The value of these bytes.
    pub fn try_new(alloc: Global, bytes: &[u8]) -> Result<Value, ValueError>
        ensures { ValueAnswer result bytes.now }
    {
        let len = bytes.len();
        if len > VALUE_MAX {
            return Err(ValueError::BadValue { len });
        }
        match exact_copy(alloc, bytes) {
            Ok(bytes) => Ok(Value { bytes }),
            Err(_) => Err(ValueError::Memory),
        }
    }

    /// Its bytes.
    pub fn as_bytes(&self) -> &[u8]
        ensures bytes { result.now ≡ self.now }
        ensures fits { IsValueLength (length self.now) }
    {
        self.bytes.as_slice()
    }

    /// An equal value.
    pub fn try_copy(&self, alloc: Global) -> Result<Value, NoMemory>
        ensures { IfOk result (λ value. value ≡ self.now) }
    {
        Ok(Value {
            bytes: exact_copy(alloc, self.bytes.as_slice())?,
        })
    }
}

impl PartialEq for Value {
    ghost eq = { pointwise ◌==◌ };

    ghost laws = { Prim.search (comparing, rules) };

    fn eq(&self, other: &Value) -> bool {
        self.bytes.as_slice() == other.bytes.as_slice()
    }
}

impl Eq for Value {
    ghost laws = { Prim.search (comparing, rules) };
}
