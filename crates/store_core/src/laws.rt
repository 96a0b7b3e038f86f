//! What holds of the machine over every list of events, as calls that carry it in their contracts. They do nothing.
ghost use Rattle.store_core.specs.EditionLaws.{DraftIsCompaction, NumbersAreDrawnOnce};
ghost use Rattle.store_core.specs.Laws.{AnswersHold, HistoryIsFair};
ghost use Rattle.store_core.specs.SegmentLaws.{NoEarlierSegmentIsNeeded};
ghost use Rattle.store_core.specs.SettledLaws.{BasesAreSettled};
ghost use Rattle.store_core.specs.ShelfLaws.{NamedFilesStand};

/// Whatever happened from the beginning on: a value found is that of the map after the front that is named, and a page is
/// that of the map after the pin's front, with the flag that it is the last one. No caller's entry is counted twice.
pub fn answers_of_runs()
    ensures answers { AnswersHold }
    ensures fair { HistoryIsFair }
{}

/// In every world a draft has what the compaction by the plan leaves, and its files have the numbers from the next one on,
/// each of them once, and the edition the number after theirs.
pub fn drafts_are_compactions()
    ensures compaction { DraftIsCompaction }
    ensures numbers { NumbersAreDrawnOnce }
{}

/// Whatever happened from the beginning on, all entries that an edition has in its tables or a frozen member has are settled:
/// no base and no member's end is above the settled position.
pub fn bases_are_settled()
    ensures { BasesAreSettled }
{}

/// Whatever happened from the beginning on, each file of the used, the settled and the written edition stands, with its run.
pub fn named_files_stand()
    ensures { NamedFilesStand }
{}

/// Whatever happened from the beginning on, each log entry that is not below its partition's base lies in no segment before the
/// first one that the edition names: what is released is not needed.
pub fn no_earlier_segment_is_needed()
    ensures { NoEarlierSegmentIsNeeded }
{}
