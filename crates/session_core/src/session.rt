//! A session from its first byte to its end.
ghost use Rattle.std.specs.Prelude.{◌≡◌, ◌≢◌, ◌+◌, ◌≤◌, ◌<◌, [], true, vec_capacity, Some, None};
ghost use Rattle.wire_protocol.specs.declared.limits.TheConstants.{REPLY_MAX};
ghost use Rattle.wire_protocol.specs.Grammar.{spell_reply as reply_bytes};
ghost use Rattle.fault_count.specs.Counts.{RoseByOne};
ghost use Rattle.fault_count.specs.Causes.{HasCause};
ghost use Rattle.link_model.specs.Streams.{PutsFront, OneFault};
ghost use Rattle.session_core.specs.declared.limits.TheConstants.{SESSION_MAX};
ghost use Rattle.session_core.specs.Telling.{AreOf, AreAtMost};
ghost use Rattle.session_core.specs.Conversations.{SessionEnds, scene_at, decided_of};
ghost use Rattle.session_core.specs.Turns.{TurnOut};

use crate::answers::Answers;
use crate::deciding::{Decision, decide};
use crate::filling::take_message;
use crate::rooms::Rooms;
use crate::session_end::SessionEnd;
use crate::session_out::SessionOut;
use disk_model::FaultPile;
use history_core::Reply;
use link_model::{Failed, Sink, Source};
use std::alloc::Global;
use wire_protocol::spell_reply;

/// Puts one reply, in the room for it.
fn send<W: Sink>(room: &mut Vec<u8>, reply: &Reply, sink: &mut W) -> Result<(), Failed>
    requires { REPLY_MAX ≤ vec_capacity room.old }
    ensures bytes { PutsFront (W.written sink.old) (W.written sink.new) result (reply_bytes reply.now) }
    ensures cause { HasCause OneFault (W.faults sink.old) (W.faults sink.new) result }
    ensures room { vec_capacity room.old ≤ vec_capacity room.new }
{
    room.clear();
    spell_reply(reply, room).unwrap();
    sink.put(room.as_slice())
}

/// Takes a message and puts its reply, or says how the session ends.
fn turn<A: Answers, R: Source, W: Sink>(
    alloc: Global,
    answers: &A,
    pass: &mut A::Pass,
    rooms: &mut Rooms,
    faults: &mut FaultPile,
    source: &mut R,
    sink: &mut W,
) -> Option<SessionEnd>
    requires start { rooms.old.decoder.bytes ≡ [] }
    requires spent { rooms.old.decoder.at ≤ SESSION_MAX }
    requires few { AreAtMost rooms.old.decoder.at faults.old }
    requires books { AreOf A.books faults.old }

    ensures out { TurnOut result rooms.old.decoder rooms.new.decoder
        (scene_at A.Answers R.Source W.Sink pass.old source.old sink.old faults.old)
        (scene_at A.Answers R.Source W.Sink pass.new source.new sink.new faults.new) }
    ensures begun { result ≢ Some SessionEnd.Memory }
    ensures spent { rooms.new.decoder.at ≤ SESSION_MAX }
    ensures books { AreOf A.books faults.new }

    ensures source_later { R.faults source.old ≤ R.faults source.new }
    ensures source_failed { result ≡ Some SessionEnd.SourceFault →
        RoseByOne (R.faults source.old) (R.faults source.new) }
    ensures source_kept { result ≢ Some SessionEnd.SourceFault → R.faults source.new ≡ R.faults source.old }
    ensures sink_later { W.faults sink.old ≤ W.faults sink.new }
    ensures sink_failed { result ≡ Some SessionEnd.SinkFault → RoseByOne (W.faults sink.old) (W.faults sink.new) }
    ensures sink_kept { result ≢ Some SessionEnd.SinkFault → W.faults sink.new ≡ W.faults sink.old }
{
    if let Err(end) = take_message(&mut rooms.decoder, source) {
        return Some(end);
    }
    let Decision { reply, end } = decide(answers, alloc, pass, faults, &mut rooms.decoder);
    let Ok(()) = send(&mut rooms.reply, &reply, sink) else {
        return Some(SessionEnd::SinkFault);
    };
    end
}

/// How many replies were decided in the turn that ended so.
fn decided_in(end: SessionEnd) -> u64
    ensures { result ≡ decided_of end }
{
    match end {
        SessionEnd::Quit | SessionEnd::Bad { .. } | SessionEnd::SinkFault => 1,
        SessionEnd::End | SessionEnd::Cut { .. } | SessionEnd::Spent => 0,
        SessionEnd::SourceFault | SessionEnd::Memory => 0,
    }
}

/// Lets a sink that gathers replies pass on what it holds, unless it has failed already.
fn pass_on<W: Sink>(end: SessionEnd, sink: &mut W) -> SessionEnd
    ensures bytes { W.written sink.new ≡ W.written sink.old }
    ensures end { result ≢ SessionEnd.SinkFault → result ≡ end }
    ensures ended { end ≡ SessionEnd.SinkFault →
        (result ≡ SessionEnd.SinkFault) × (W.faults sink.new ≡ W.faults sink.old) }
    ensures later { W.faults sink.old ≤ W.faults sink.new }
    ensures failed { end ≢ SessionEnd.SinkFault → result ≡ SessionEnd.SinkFault →
        RoseByOne (W.faults sink.old) (W.faults sink.new) }
    ensures kept { result ≢ SessionEnd.SinkFault → W.faults sink.new ≡ W.faults sink.old }
    ensures passed_on { result ≢ SessionEnd.SinkFault → W.is_passed_on sink.new ≡ true }
{
    if end == SessionEnd::SinkFault {
        return end;
    }
    let Ok(()) = sink.put(&[]) else {
        return SessionEnd::SinkFault;
    };
    end
}

/// Serves one session: takes requests, answers each, and puts the replies, until the session ends.
///
/// A session takes its own memory before its first byte. After that, being out of memory is a reply.
pub fn run_session<A: Answers, R: Source, W: Sink>(
    alloc: Global,
    answers: &A,
    pass: &mut A::Pass,
    source: &mut R,
    sink: &mut W,
) -> SessionOut
    // What came, what was put, what the pass then knows, and which failures were told.
    ensures out { SessionEnds result.end 0
        (scene_at A.Answers R.Source W.Sink pass.old source.old sink.old [])
        (scene_at A.Answers R.Source W.Sink pass.new source.new sink.new result.faults)
        result.replies }

    // The units are of the store's own books.
    ensures books { AreOf A.books result.faults }

    // A fault of a stream comes only where that stream's count rose, by one, and no such fault is passed over.
    ensures source_later { R.faults source.old ≤ R.faults source.new }
    ensures source_failed { result.end ≡ SessionEnd.SourceFault →
        RoseByOne (R.faults source.old) (R.faults source.new) }
    ensures sink_later { W.faults sink.old ≤ W.faults sink.new }
    ensures sink_failed { result.end ≡ SessionEnd.SinkFault → RoseByOne (W.faults sink.old) (W.faults sink.new) }
    ensures source_kept { result.end ≢ SessionEnd.SourceFault → result.end ≢ SessionEnd.SinkFault →
        R.faults source.new ≡ R.faults source.old }
    ensures sink_kept { result.end ≢ SessionEnd.SinkFault → W.faults sink.new ≡ W.faults sink.old }

    // No reply is held back after a session.
    ensures passed_on { result.end ≢ SessionEnd.SinkFault → result.end ≢ SessionEnd.Memory →
        W.is_passed_on sink.new ≡ true }
{
    let mut faults = FaultPile::new();
    let mut replies: u64 = 0;
    let Ok(mut rooms) = Rooms::make(alloc) else {
        return SessionOut {
            end: SessionEnd::Memory,
            replies,
            faults,
        };
    };
    'messages: loop {
        match turn(alloc, answers, pass, &mut rooms, &mut faults, source, sink) {
            None => replies += 1,
            Some(end) => {
                let replies = replies + decided_in(end);
                let end = pass_on(end, sink);
                return SessionOut {
                    end,
                    replies,
                    faults,
                };
            }
        }
    }
}
