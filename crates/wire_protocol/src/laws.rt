//! What holds of every spelling, as calls that carry it in their contracts. They do nothing.
ghost use Rattle.wire_protocol.specs.Laws.{SpellingsAreRead, RequestsAreApart, RepliesAreApart};

/// The spelling of each request is a whole message, which no test refuses and which reads as that request.
pub fn spellings_are_read()
    ensures { SpellingsAreRead }
{}

/// No spelling of a request begins another's, and so with replies: bytes are the spelling of one list at most.
pub fn spellings_are_apart()
    ensures requests { RequestsAreApart }
    ensures replies { RepliesAreApart }
{}
