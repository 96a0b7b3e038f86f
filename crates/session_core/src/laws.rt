//! What holds of every session, as a call that carries it in its contract. It does nothing.
ghost use Rattle.session_core.specs.Laws.{AnswersGiveSession, AnswersAddUpdates, AnswersKnowSynced, AnswersTellFailures, AnswersAloneArePlain, AnswersAloneAreSession};

/// What a store answers a session are the replies of one session over the history that the pass has then seen. Its
/// updates are in that history once each and in order. What it was told to be synced it knows to be, and each failure
/// that it was told counts. If nobody else adds an entry, the replies are those of a plain map.
pub fn answers_give_session()
    ensures session { AnswersGiveSession }
    ensures updates { AnswersAddUpdates }
    ensures synced { AnswersKnowSynced }
    ensures failures { AnswersTellFailures }
    ensures alone { AnswersAloneArePlain }
    ensures begun { AnswersAloneAreSession }
{}
