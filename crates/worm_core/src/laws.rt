//! What holds of every world of leaves. The calls do nothing: their contracts say it.
ghost use Rattle.worm_core.specs.Promises.{AnswersAreRight, RightsGo, WalksGoOn};

/// Whatever happened: an answer is in the leaf that covers its key, its change is the last one put at that key, and the
/// steps right and the splits of the walker's table are together at most all splits.
pub fn answers_are_right()
    ensures { AnswersAreRight }
{}

/// Where a walker's leaf does not cover its key, a leaf begins where that one ends.
pub fn rights_go()
    ensures { RightsGo }
{}

/// Each walker stands on a leaf that there is. It may answer where that leaf covers its key, and may go right elsewhere;
/// its steps right and the splits of its table are together at most all splits. So no walk is stuck, and each one ends
/// after fewer steps right than there may be leaves.
pub fn walks_go_on()
    ensures { WalksGoOn }
{}
