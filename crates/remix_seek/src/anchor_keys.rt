ghost use Rattle.std.specs.Prelude.{◌≡◌, ◌++◌, [], ◌∷◌, OnOk, OnErr, IfOk};
ghost use Rattle.remix_seek.specs.KeptAnchors.{keys_kept};

use rdb_base::{Key, NoMemory};
use std::alloc::Global;
use std::sync::Arc;

/// The keys of anchors: an index's own while it grows, shared once it is sealed.
#[derive(Drop)]
pub(crate) enum AnchorKeys {
    Owned(Vec<Key>),
    Shared(Arc<Vec<Key>, Global>),
}

impl AnchorKeys {
    pub(crate) fn as_slice(&self) -> &[Key]
        ensures { result.now ≡ keys_kept self.now }
    {
        match self {
            AnchorKeys::Owned(keys) => keys.as_slice(),
            AnchorKeys::Shared(keys) => keys.as_slice(),
        }
    }

    /// The same keys, in one allocation that others may share.
    pub(crate) fn seal(self, alloc: Global) -> Result<AnchorKeys, NoMemory>
        ensures { IfOk result (λ keys. keys_kept keys ≡ keys_kept self) }
    {
        match self {
            AnchorKeys::Owned(keys) => Ok(AnchorKeys::Shared(Arc::new(alloc, keys)?)),
            AnchorKeys::Shared(keys) => Ok(AnchorKeys::Shared(keys)),
        }
    }

    /// The same keys again. Sealed ones are shared, others are copied.
    pub(crate) fn share(&self, alloc: Global) -> Result<AnchorKeys, NoMemory>
        ensures { IfOk result (λ keys. keys_kept keys ≡ keys_kept self.now) }
    {
        match self {
            AnchorKeys::Owned(keys) => Ok(AnchorKeys::Owned(copied(alloc, keys.as_slice())?)),
            AnchorKeys::Shared(keys) => Ok(AnchorKeys::Shared(Arc::try_clone(keys)?)),
        }
    }

    /// Adds a key. Shared ones are copied first.
    pub(crate) fn push(&mut self, alloc: Global, key: Key) -> Result<(), NoMemory>
        ensures added { OnOk result (keys_kept self.new ≡ keys_kept self.old ++ key ∷ []) }
        ensures same { OnErr result (keys_kept self.new ≡ keys_kept self.old) }
    {
        match self {
            AnchorKeys::Owned(keys) => {
                keys.push(key)?;
                Ok(())
            }
            AnchorKeys::Shared(keys) => {
                let mut copy = copied(alloc, keys.as_slice())?;
                copy.push(key)?;
                *self = AnchorKeys::Owned(copy);
                Ok(())
            }
        }
    }
}

fn copied(alloc: Global, keys: &[Key]) -> Result<Vec<Key>, NoMemory>
    ensures { IfOk result (λ copy. copy.items ≡ keys.now) }
{
    let mut copy = Vec::with_capacity(alloc, keys.len())?;
    'keys: for key in keys {
        copy.push(key.try_copy(alloc)?)?;
    }
    Ok(copy)
}
