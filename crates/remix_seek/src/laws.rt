//! What holds of every index, as calls that carry it in their contracts. They do nothing.
ghost use Rattle.remix_seek.specs.Laws.{OneIndex, NewestIsLevel, SeekInLevel, ListedFrom, VersionIsPair, WalkInOrder};

/// Over the same runs there is only one index.
pub fn one_index()
    ensures { OneIndex }
{}

/// The newest versions of runs are their level.
pub fn newest_is_level()
    ensures { NewestIsLevel }
{}

/// At the first place of a key stands the level's change, or the level has none.
pub fn seek_in_level()
    ensures { SeekInLevel }
{}

/// The newest versions from the first place of a key on are the level from the key on.
pub fn listed_from()
    ensures { ListedFrom }
{}

/// A version of an index is the pair of its run at its place.
pub fn version_is_pair()
    ensures { VersionIsPair }
{}

/// A walk of an index gives its versions in order.
pub fn walk_in_order()
    ensures { WalkInOrder }
{}
