//! What a whole message comes to: a reply, and perhaps the session's end.
ghost use Rattle.std.specs.Prelude.{◌≡◌, ℕ, ◌+◌, ◌^◌, Err};
ghost use Rattle.disk_model.specs.Piles.{number_at};
ghost use Rattle.history_core.specs.declared.request.Request.TheVariants as asks;
ghost use Rattle.history_core.specs.declared.reply.Reply.TheVariants as replies;
ghost use Rattle.wire_protocol.specs.Messages.{wanted};
ghost use Rattle.session_core.specs.StoreCalls.{HasUpdateUnit};
ghost use Rattle.session_core.specs.Refusals.{update_refusal};
ghost use Rattle.session_core.specs.Telling.{StoreAnswers, AreOf, AreAtMost, store_of, told_by};
ghost use Rattle.session_core.specs.Turns.{Decides};

use crate::answers::Answers;
use crate::found::Found;
use crate::session_end::SessionEnd;
use crate::sync_error::SyncError;
use crate::update_error::UpdateError;
use disk_model::{FaultPile, FaultUnit};
use history_core::{Reply, Request};
use rdb_base::{Key, Row};
use std::alloc::Global;
use wire_protocol::{Decoder, WireError};

/// What a whole message comes to.
pub(crate) struct Decision {
    pub(crate) reply: Reply,
    /// How the session ends, if this is its last reply.
    pub(crate) end: Option<SessionEnd>,
}

/// The reply that tells a device's failure. Its unit is kept.
fn tell_failure<A: Answers>(unit: FaultUnit, faults: &mut FaultPile) -> Reply
    requires own { unit ≡ A.books unit.device }
    requires few { AreAtMost (2 ^ 62) faults.old }
    requires books { AreOf A.books faults.old }
    ensures reply { result ≡ replies.DeviceFault unit.device }
    ensures units { (device : ℕ) →
        number_at faults.new device ≡ number_at faults.old device + told_by device result }
    ensures books { AreOf A.books faults.new }
{
    let device = unit.device();
    faults.add(unit);
    Reply::DeviceFault { device }
}

/// The reply to a refused update. The unit of a failure is kept.
fn refuse_update<A: Answers>(error: UpdateError, faults: &mut FaultPile) -> Reply
    requires own { HasUpdateUnit A.books (Err error) }
    requires few { AreAtMost (2 ^ 62) faults.old }
    requires books { AreOf A.books faults.old }
    ensures reply { result ≡ update_refusal error }
    ensures units { (device : ℕ) →
        number_at faults.new device ≡ number_at faults.old device + told_by device result }
    ensures books { AreOf A.books faults.new }
{
    match error {
        UpdateError::HistorySpent { number } => Reply::HistorySpent { number },
        UpdateError::NumbersSpent { next } => Reply::NumbersSpent { next },
        UpdateError::DeviceFault(unit) => tell_failure::<A>(unit, faults),
        UpdateError::Memory => Reply::OutOfMemory,
    }
}

fn answer_put<A: Answers>(
    answers: &A,
    alloc: Global,
    pass: &mut A::Pass,
    faults: &mut FaultPile,
    row: Row,
) -> Reply
    requires few { AreAtMost (2 ^ 62) faults.old }
    requires books { AreOf A.books faults.old }
    ensures answered { StoreAnswers (store_of A.Answers pass.old faults.old) (store_of A.Answers pass.new faults.new)
        (asks.Put row) result }
    ensures books { AreOf A.books faults.new }
{
    let Row { key, value } = row;
    match answers.put(alloc, pass, key, value) {
        Ok(number) => Reply::Done { number },
        Err(error) => refuse_update::<A>(error, faults),
    }
}

fn answer_delete<A: Answers>(
    answers: &A,
    alloc: Global,
    pass: &mut A::Pass,
    faults: &mut FaultPile,
    key: Key,
) -> Reply
    requires few { AreAtMost (2 ^ 62) faults.old }
    requires books { AreOf A.books faults.old }
    ensures answered { StoreAnswers (store_of A.Answers pass.old faults.old) (store_of A.Answers pass.new faults.new)
        (asks.Delete key) result }
    ensures books { AreOf A.books faults.new }
{
    match answers.delete(alloc, pass, key) {
        Ok(number) => Reply::Done { number },
        Err(error) => refuse_update::<A>(error, faults),
    }
}

fn answer_get<A: Answers>(
    answers: &A,
    alloc: Global,
    pass: &mut A::Pass,
    faults: &FaultPile,
    key: &Key,
) -> Reply
    ensures { StoreAnswers (store_of A.Answers pass.old faults.now) (store_of A.Answers pass.new faults.now)
        (asks.Get key.now) result }
{
    match answers.get(alloc, pass, key) {
        Ok(Found { front, value }) => match value {
            Some(value) => Reply::Value { front, value },
            None => Reply::Absent { front },
        },
        Err(_) => Reply::OutOfMemory,
    }
}

fn answer_sync<A: Answers>(
    answers: &A,
    alloc: Global,
    pass: &mut A::Pass,
    faults: &mut FaultPile,
) -> Reply
    requires few { AreAtMost (2 ^ 62) faults.old }
    requires books { AreOf A.books faults.old }
    ensures answered { StoreAnswers (store_of A.Answers pass.old faults.old) (store_of A.Answers pass.new faults.new)
        asks.Sync result }
    ensures books { AreOf A.books faults.new }
{
    match answers.sync(alloc, pass) {
        Ok(number) => Reply::Synced { number },
        Err(SyncError::DeviceFault(unit)) => tell_failure::<A>(unit, faults),
        Err(SyncError::Memory) => Reply::OutOfMemory,
    }
}

/// Reads the message that the decoder holds, and answers it.
pub(crate) fn decide<A: Answers>(
    answers: &A,
    alloc: Global,
    pass: &mut A::Pass,
    faults: &mut FaultPile,
    decoder: &mut Decoder,
) -> Decision
    requires whole { wanted decoder.old.bytes ≡ 0 }
    requires few { AreAtMost (2 ^ 62) faults.old }
    requires books { AreOf A.books faults.old }
    ensures decides { Decides decoder.old (store_of A.Answers pass.old faults.old) result
        decoder.new (store_of A.Answers pass.new faults.new) }
    ensures books { AreOf A.books faults.new }
{
    let (reply, end) = match decoder.request(alloc) {
        Ok(Some(Request::Put { row })) => (answer_put(answers, alloc, pass, faults, row), None),
        Ok(Some(Request::Delete { key })) => {
            (answer_delete(answers, alloc, pass, faults, key), None)
        }
        Ok(Some(Request::Get { key })) => (answer_get(answers, alloc, pass, faults, &key), None),
        Ok(Some(Request::Sync)) => (answer_sync(answers, alloc, pass, faults), None),
        Ok(Some(Request::Quit)) => (Reply::Bye, Some(SessionEnd::Quit)),
        Ok(None) => unreachable!(),
        Err(WireError::Memory) => (Reply::OutOfMemory, None),
        Err(WireError::BadMessage { at, code }) => {
            let end = SessionEnd::Bad { at, code };
            (Reply::BadMessage { at, code }, Some(end))
        }
    };
    Decision { reply, end }
}
