//! The program from its arguments to its status.
ghost use Rattle.std.specs.Prelude.{◌≡◌, ◌⊎◌, Err, IfOk};
ghost use Rattle.remixdb.specs.Words.{words_after_name};
ghost use Rattle.remixdb.specs.Outcomes.{status_of};
ghost use Rattle.host_model.specs.HostState.{IsAllHome};
ghost use Rattle.remixdb.specs.Scripts.{HasRun};
ghost use Rattle.remixdb.specs.declared.arguments.ArgumentsError.TheVariants.{NotText, Memory};

use crate::arguments::{ArgumentsError, words_of};
use crate::outcome::Outcome;
use crate::top::{remixdb, tell};
use host_model::Host;
use std::alloc::Global;

/// Tells what came of a run that did not begin, and answers its status.
fn refuse<H: Host>(alloc: Global, outcome: Outcome, host: &mut H) -> u8
    ensures status { result ≡ status_of outcome }
    ensures same { H.state host.new ≡ H.state host.old }
{
    tell(alloc, outcome, host);
    outcome.status()
}

/// Runs on the words after the program's name, and answers the status. Arguments that are no text are words in another
/// form; out of memory is status 6. Each status but 0 has its line in the notes.
pub(crate) fn program<H: Host>(
    alloc: Global,
    arguments: Result<&[String], ArgumentsError>,
    host: &mut H,
) -> u8
    requires { IsAllHome (H.state host.old) }
    ensures home { IsAllHome (H.state host.new) }
    ensures not_text { arguments.entry ≡ Err NotText → (result ≡ 2) × (H.state host.new ≡ H.state host.old) }
    ensures memory { arguments.entry ≡ Err Memory → (result ≡ 6) × (H.state host.new ≡ H.state host.old) }
    ensures ran { IfOk arguments.entry (λ texts.
        ((result ≡ 6) × (H.state host.new ≡ H.state host.old))
        ⊎ HasRun (words_after_name texts.now) result (H.strip_leaves host.old 0) (H.strip_leaves host.new 0)
        (H.state host.old) (H.state host.new)) }
{
    let arguments = match arguments {
        Ok(arguments) => arguments,
        Err(ArgumentsError::NotText) => return refuse(alloc, Outcome::UnknownWords, host),
        Err(ArgumentsError::Memory) => return refuse(alloc, Outcome::OutOfMemory, host),
    };
    match words_of(alloc, arguments) {
        Ok(words) => remixdb(alloc, &words, host),
        Err(_) => refuse(alloc, Outcome::OutOfMemory, host),
    }
}
