//! What holds of every map, history, run, page and pair field, as calls that carry it in their contracts. They do nothing.
ghost use Rattle.rdb_base.specs.Laws.{EqualIsSame, SameIsEqual, KeepsRising, HasChange, KeepsOthers, GoesOn, BeginsWithBase, KeepsPast};
ghost use Rattle.rdb_base.specs.LevelLaws.{NewestRunDecides, LevelIsRun, SameChangesSameRun, RowsAreMap, RowsHaveChanges, RowsFromBound, RowsAfterEntries, MergeTakesNewer, MergeTakesOne, MergeTakesOlder, MergeEnds};
ghost use Rattle.rdb_base.specs.PairLaws.{PairReadsBack, PairWasSpelled, PairHasSize, BadFieldIsInside};
ghost use Rattle.rdb_base.specs.PageLaws.{PageIsFront, PageFits, PageIsLongest, PageGoesOn};
ghost use Rattle.rdb_base.specs.Order.{key_cmp};
ghost use Rattle.std.specs.Cmp.{IsTotalOrder};

/// Keys are in one total order, and only a key itself compares alike with it.
pub fn order_of_keys()
    ensures total { IsTotalOrder key_cmp }
    ensures same { EqualIsSame }
    ensures reflexive { SameIsEqual }
{}

/// What an entry makes of a map: its keys still rise, its key has what the change left, and no other key is touched.
pub fn map_after_entry()
    ensures rising { KeepsRising }
    ensures here { HasChange }
    ensures others { KeepsOthers }
{}

/// The maps of a history: the base at its first number, then one entry a number, whatever is added later.
pub fn maps_of_history()
    ensures first { BeginsWithBase }
    ensures next { GoesOn }
    ensures past { KeepsPast }
{}

/// A pair field is read back as it was spelled, whatever follows, and what is read was spelled there. It is as long as
/// its size, and no wrong field lies past the end.
pub fn pair_field_read_back()
    ensures pair { PairReadsBack }
    ensures spelled { PairWasSpelled }
    ensures size { PairHasSize }
    ensures inside { BadFieldIsInside }
{}

/// The level of several runs is a run, and the newest run that has a key decides there.
pub fn level_of_runs()
    ensures run { LevelIsRun }
    ensures newest { NewestRunDecides }
{}

/// Two runs with the same change at each key are one.
pub fn run_by_changes()
    ensures same { SameChangesSameRun }
{}

/// The rows of a run are a map that has at each key what the run's change leaves there, also from a bound on.
pub fn rows_of_run()
    ensures map { RowsAreMap }
    ensures changes { RowsHaveChanges }
    ensures from { RowsFromBound }
{}

/// The newest changes of entries over a base give the base's rows after the entries.
pub fn rows_after_entries()
    ensures rows { RowsAfterEntries }
{}

/// Newer pairs over older ones, merged from the front: the lower first key comes first, and of equal ones the newer.
pub fn merge_of_runs()
    ensures newer { MergeTakesNewer }
    ensures both { MergeTakesOne }
    ensures older { MergeTakesOlder }
    ensures end { MergeEnds }
{}

/// A page is the longest beginning of the rows from a bound on that fits, and in any case the first row.
pub fn page_of_rows()
    ensures front { PageIsFront }
    ensures fits { PageFits }
    ensures longest { PageIsLongest }
    ensures some { PageGoesOn }
{}
