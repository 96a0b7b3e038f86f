ghost use Rattle.std.specs.Prelude.{nat_lt, ◌≡◌, ◌+◌, ◌<◌, ◌≤◌, ◌++◌, ◌∷◌, [], None, true, false, length, OnOk, IfOk, IfErr};
ghost use Rattle.rdb_base.specs.declared.limits.TheConstants.{NUMBER_MAX};
ghost use Rattle.disk_model.specs.Crashes.{Narrows};
ghost use Rattle.frame_journal.specs.Devices.{SameStrip, KeepsBytes, LeavesNoMore, OfBytes, OfImages, Spans};
ghost use Rattle.frame_journal.specs.JournalState.{has_staged};
ghost use Rattle.frame_journal.specs.Frames.{frames_of};
ghost use Rattle.entry_code.specs.Payloads.{entry_field, entry_fields};
ghost use Rattle.wal_log.specs.declared.limits.TheConstants.{PENDING_MAX};
ghost use Rattle.wal_log.specs.Logs.{HasEntries};
ghost use Rattle.wal_log.specs.Answers.{IsRefused, IsOfSynced, LogErrorOf, LogCause};
ghost use Rattle.wal_log.specs.Calls.{KeepsLists, HasFront, HasAll};

use crate::LogError;
use crate::reading::entries_alone;
use crate::told::told_entries;
use disk_model::{LOG_STRIPS, Strip};
use entry_code::{Batch, entry_len};
use frame_journal::{Journal, JournalError};
use rdb_base::{Entry, NoMemory, ToldEntries};
use std::alloc::Global;
use std::marker::Model;
use std::snapshot::Snapshot;

/// One segment of a log on its strip: the entries that stand there, those of a frame that is staged or in doubt, and
/// those that are pending, which are in memory alone. Contracts see all its entries and how many of them are synced.
///
/// It is opened, started where it has no header, then takes entries and flushes them. After a refusal each entry is
/// kept, and the next call goes on where the refused one stopped.
#[derive(Drop)]
pub struct Segment<S: Strip> {
    pub(crate) journal: Journal<S>,
    pub(crate) batch: Batch,
    pub(crate) number: u64,
    pub(crate) first: u64,
    /// Whether its header surely stands.
    pub(crate) headed: bool,
    pub(crate) synced: Snapshot<ToldEntries>,
    pub(crate) staged: Option<Snapshot<ToldEntries>>,
    pub(crate) all: ToldEntries,
}

impl<S: Strip> Model for Segment<S> {
    ghost use Rattle.wal_log.specs.SegmentState.{SegmentState};
    ghost use Rattle.wal_log.specs.Kept.{IsKept, IsCounted};
    ghost use Rattle.wal_log.specs.Told.{written_of};

    ghost Value = { SegmentState S };

    ghost view = { λ s. record {
      journal = s.journal;
      number = s.number;
      first = s.first;
      synced = s.synced.value;
      written = written_of s.synced.value s.staged;
      entries = s.all;
      batch = s.batch;
      headed = s.headed;
    } };

    ghost invariant = { λ s. IsKept S.Strip s.journal s.number s.first s.synced.value (written_of s.synced.value s.staged) s.headed
        × IsCounted s.number s.first s.synced.value (written_of s.synced.value s.staged) s.all s.batch s.headed };
}

impl<S: Strip> Segment<S> {
    /// Opens a strip as segment `number` of a log, whose first entry has the number `first`. The strip's bytes stay as
    /// they were. The entries come in order. A strip without a header has none, and the segment has to be started.
    pub fn open(
        alloc: Global,
        strip: S,
        number: u64,
        first: u64,
    ) -> Result<(Segment<S>, Vec<Entry>), (S, LogError)>
        requires least { number ≤ first }
        requires most { first ≤ NUMBER_MAX }

        // The segment has the entries that are on the strip, and all of them are synced.
        ensures read { IfOk result (λ found. OfBytes S.Strip strip (HasEntries number first found.1.items)) }
        ensures entries { IfOk result (λ found. found.0.entries ≡ found.1.items) }
        ensures synced { IfOk result (λ found. found.0.synced ≡ found.1.items) }
        ensures pending { IfOk result (λ found. found.0.batch.entries ≡ []) }
        ensures same { IfOk result (λ found. (found.0.number ≡ number) × (found.0.first ≡ first)) }
        ensures headed { IfOk result (λ found. OfBytes S.Strip strip
            (λ bytes. found.0.headed ≡ nat_lt 0 (length (frames_of bytes)))) }
        ensures kept { IfOk result (λ found. SameStrip S.Strip 3 strip found.0.journal.strip
            × KeepsBytes S.Strip strip found.0.journal.strip) }
        ensures count { IfOk result (λ found. S.count found.0.journal.strip ≡ S.count strip) }
        ensures idle { IfOk result (λ found. has_staged found.0.journal ≡ false) }
        ensures narrows { IfOk result (λ found. Narrows (S.may_leave strip) (S.may_leave found.0.journal.strip)) }
        ensures time { IfOk result (λ found. Spans S.Strip strip found.0.journal.strip) }
        ensures crash { IfOk result (λ found. LeavesNoMore S.Strip strip found.0.journal.strip) }
        ensures time_back { IfErr result (λ refused. Spans S.Strip strip refused.0) }

        // A torn header first, then frame by frame a wrong payload or a number that does not follow.
        ensures refused { IfErr result (λ refused. OfBytes S.Strip strip (IsRefused number first refused.1)) }
        ensures back { IfErr result (λ refused. SameStrip S.Strip 3 strip refused.0
            × KeepsBytes S.Strip strip refused.0) }
        ensures images { IfErr result (λ refused. Narrows (S.may_leave strip) (S.may_leave refused.0)) }
        ensures crash_back { IfErr result (λ refused. LeavesNoMore S.Strip strip refused.0) }
        ensures synced_back { IfErr result (λ refused. IsOfSynced S.Strip refused.0 refused.1) }
        ensures cause { IfErr result
            (λ refused. LogCause (S.book strip) (S.count strip) (S.count refused.0) refused.1) }
    {
        match Journal::open(alloc, strip) {
            Ok((journal, frames)) => match entries_alone(alloc, number, first, &frames) {
                Ok(entries) => {
                    let len = entries.len() as u64;
                    let headed = journal.ready();
                    let all = told_entries(&entries);
                    let segment = Segment {
                        journal,
                        batch: Batch::new(alloc, first + len),
                        number,
                        first,
                        headed,
                        synced: Snapshot::of(&all),
                        staged: None,
                        all,
                    };
                    Ok((segment, entries))
                }
                Err(error) => Err((journal.into_strip(), error)),
            },
            Err((strip, error)) => Err((strip, told_of(number, error))),
        }
    }

    /// Whether its header surely stands.
    pub fn is_started(&self) -> bool
        ensures { result ≡ self.now.headed }
    {
        self.headed
    }

    /// The number after its last entry.
    pub fn end(&self) -> u64
        ensures number { result ≡ self.now.first + length self.now.entries }
        ensures most { result ≤ NUMBER_MAX }
    {
        self.tell_images();
        self.batch.end()
    }

    /// How many bytes of entries are pending.
    pub fn pending(&self) -> usize
        ensures { result ≡ length (entry_fields self.now.batch.entries) }
    {
        self.batch.pending()
    }

    /// Makes room for one entry.
    pub fn reserve(&mut self, entry: &Entry) -> Result<(), NoMemory>
        ensures room { OnOk result (length (entry_field entry.now) ≤ self.new.batch.room) }
        ensures kept { self.old.batch.room ≤ self.new.batch.room }
        ensures pending { self.new.batch.entries ≡ self.old.batch.entries }
        ensures entries { self.new.entries ≡ self.old.entries }
        ensures synced { self.new.synced ≡ self.old.synced }
        ensures written { self.new.written ≡ self.old.written }
        ensures same { (self.new.number ≡ self.old.number) × (self.new.first ≡ self.old.first) }
        ensures headed { self.new.headed ≡ self.old.headed }
        ensures journal { self.new.journal ≡ self.old.journal }
    {
        let len = entry_len(entry);
        self.batch.reserve(len)
    }

    /// Adds an entry, and answers with its number. It makes no device call.
    pub fn push(&mut self, entry: &Entry) -> u64
        requires headed { self.old.headed ≡ true }
        requires room { length (entry_field entry.now) ≤ self.old.batch.room }
        requires pending { length (entry_fields self.old.batch.entries) < PENDING_MAX }
        requires end { self.old.first + length self.old.entries < NUMBER_MAX }
        ensures number { result ≡ self.old.first + length self.old.entries }
        ensures entries { self.new.entries ≡ self.old.entries ++ entry.now ∷ [] }
        ensures pending { self.new.batch.entries ≡ self.old.batch.entries ++ entry.now ∷ [] }
        ensures left { self.old.batch.room ≤ self.new.batch.room + length (entry_field entry.now) }
        ensures synced { self.new.synced ≡ self.old.synced }
        ensures written { self.new.written ≡ self.old.written }
        ensures same { (self.new.number ≡ self.old.number) × (self.new.first ≡ self.old.first) }
        ensures headed { self.new.headed ≡ true }
        ensures journal { self.new.journal ≡ self.old.journal }
    {
        self.tell_images();
        let number = self.batch.end();
        self.batch.push(entry);
        self.all.push(entry);
        number
    }

    /// The strip. Its bytes, and each crash image, have the first so many entries, no fewer than are synced.
    pub fn into_strip(self) -> S
        ensures strip { result ≡ self.journal.strip }
        ensures content { OfBytes S.Strip result (HasFront self) }
        ensures images { OfImages S.Strip result (HasFront self) }
        // They have all of them where all are synced.
        ensures all { self.synced ≡ self.entries →
            OfBytes S.Strip result (HasAll self) × OfImages S.Strip result (HasAll self) }
    {
        self.tell_images();
        let Segment { journal, .. } = self;
        journal.into_strip()
    }
}

/// Why a journal is not opened, as a log says it.
pub(crate) fn told_of(number: u64, error: JournalError) -> LogError
    ensures { LogErrorOf number error result }
{
    match error {
        JournalError::Fault(unit) => LogError::Fault(unit),
        JournalError::TornHeader { at } => LogError::TornHeader {
            strip: (number % LOG_STRIPS as u64) as u8,
            at,
        },
        JournalError::Memory => LogError::Memory,
    }
}
