//! What holds of the session relation, as a call that carries it in its contract. It does nothing.
ghost use Rattle.history_core.specs.Laws.{NumbersNeverFall, LeastNeverFalls, StandsWhenHistoryGrows};
ghost use Rattle.history_core.specs.OperationLaws.{RepliesAreOperations, OperationsAreReplies, OperationsStandWhenHistoryGrows};
ghost use Rattle.history_core.specs.PassLaws.{PassGivesSession, PassAddsItsUpdates, PassKnowsSynced, PassCountsFailures, PassAloneIsPlain};

/// The numbers that the replies of a session name never fall, and replies stand when others add to the history.
pub fn replies_over_history()
    ensures numbers { NumbersNeverFall }
    ensures forward { LeastNeverFalls }
    ensures growing { StandsWhenHistoryGrows }
{}

/// The replies of a session are operations, and operations stand when others add to the history.
pub fn replies_are_operations()
    ensures operations { RepliesAreOperations }
    ensures replies { OperationsAreReplies }
    ensures growing { OperationsStandWhenHistoryGrows }
{}

/// What a pass does is one session over what it has then seen. Its own updates are in it once each and in order, and
/// no others of its caller; what it was told to be synced it knows to be; each failure of a device that it was told
/// counts.
pub fn pass_gives_session()
    ensures session { PassGivesSession }
    ensures updates { PassAddsItsUpdates }
    ensures synced { PassKnowsSynced }
    ensures failures { PassCountsFailures }
    ensures alone { PassAloneIsPlain }
{}
