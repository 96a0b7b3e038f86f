//! All that the program does.
ghost use Rattle.std.specs.Prelude.{◌≡◌, ◌≤◌, ◌↔◌};
ghost use Rattle.fault_count.specs.Counts.{Rose};
ghost use Rattle.remixdb.specs.Words.{IsScript};
ghost use Rattle.remixdb.specs.Outcomes.{status_of, IsCleanOfDevices, IsCleanOfStreams};
ghost use Rattle.host_model.specs.HostState.{IsAllHome, LeaveSame};
ghost use Rattle.remixdb.specs.Scripts.{HasCauses, ScriptEnds, home_of};

use crate::command::{Command, command_of};
use crate::outcome::Outcome;
use crate::script::script;
use host_model::{Host, Word};
use std::alloc::Global;

/// Writes the outcome's line to the notes. Where there is no memory for its numbers, nothing is written.
pub(crate) fn tell<H: Host>(alloc: Global, outcome: Outcome, host: &mut H)
    ensures same { H.state host.new ≡ H.state host.old }
    ensures images { LeaveSame (H.strip_leaves host.old) (H.strip_leaves host.new) }
{
    if let Some(line) = outcome.fixed_line() {
        host.note(line.as_bytes());
        return;
    }
    match outcome.numbered_line(alloc) {
        Ok(Some(line)) => host.note(line.as_bytes()),
        Ok(None) | Err(_) => {}
    }
}

fn run<H: Host>(alloc: Global, words: &[Word], host: &mut H) -> Outcome
    requires { IsAllHome (H.state host.old) }
    ensures home { IsAllHome (H.state host.new) }
    ensures words { (status_of result ≡ 2) ↔ (IsScript words.now → ⊥) }
    ensures idle { (IsScript words.now → ⊥) → H.state host.new ≡ H.state host.old }
    ensures causes { HasCauses (status_of result) (H.state host.old) (H.state host.new) }
    ensures bytes { IsScript words.now →
        ScriptEnds (status_of result) (H.strip_leaves host.old 0) (H.strip_leaves host.new 0)
        (home_of (H.state host.old)) (home_of (H.state host.new)) }
{
    match command_of(alloc, words) {
        Some(Ok(Command::Script(place))) => script(alloc, &place, host),
        Some(Err(_)) => Outcome::OutOfMemory,
        None => Outcome::UnknownWords,
    }
}

/// Does what the words ask for, and answers the status that the program ends with. Of several that apply it is the
/// first in the order 2, 6, 3, 4, 5, 1, 0.
///
/// | Status | Comes |
/// |---|---|
/// | 0 | otherwise |
/// | 1 | a session ended by a message that is in no grammar, inside a message, or after 2^62 bytes |
/// | 2 | the words are not in the stated form: `script`, and a place, which is `mem` or a folder |
/// | 3 | the devices are refused: a torn header, a frame that is no record of a log, or a gap in its numbers |
/// | 4 | a device failed, at opening, in the session or at its end |
/// | 5 | a stream failed |
/// | 6 | out of memory, and no reply could say so |
pub fn remixdb<H: Host>(alloc: Global, words: &[Word], host: &mut H) -> u8
    requires { IsAllHome (H.state host.old) }

    // The streams and the devices are back.
    ensures home { IsAllHome (H.state host.new) }

    // Status 2 is exactly that of words in another form. Nothing is then taken, put or written, and no fault counted.
    ensures words { (result ≡ 2) ↔ (IsScript words.now → ⊥) }
    ensures idle { (IsScript words.now → ⊥) → H.state host.new ≡ H.state host.old }
    ensures least { result ≤ 6 }

    // Status 4 comes only if a device's fault was counted, and a status of lower rank never if one was.
    ensures device_failed { result ≡ 4 → Rose (H.state host.old).devices.faults (H.state host.new).devices.faults }
    ensures device_kept { IsCleanOfDevices result → (H.state host.new).devices.faults ≡ (H.state host.old).devices.faults }

    // Status 5 comes only if a stream's fault was counted, and a status of lower rank never if one was.
    ensures stream_failed { result ≡ 5 → Rose (H.state host.old).streams.faults (H.state host.new).streams.faults }
    ensures stream_kept { IsCleanOfStreams result →
        (H.state host.new).streams.faults ≡ (H.state host.old).streams.faults }

    // Where contracts can see the host's bytes: which requests came and were taken, what was put, to what the devices
    // reopen, also after a crash, and why it ended so.
    ensures bytes { IsScript words.now →
        ScriptEnds result (H.strip_leaves host.old 0) (H.strip_leaves host.new 0)
        (home_of (H.state host.old)) (home_of (H.state host.new)) }
{
    let outcome = run(alloc, words, host);
    tell(alloc, outcome, host);
    outcome.status()
}
