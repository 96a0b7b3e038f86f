//! RemixDB: an ordered key-value store. One session from standard input to standard output.
//!
//! Stands for   `remixdb(words, host) -> status` (`src/top.rt`)
//! Promises     the bytes put are the replies that one ordered map gives to the requests that came; it begins as the map
//!              to which the devices reopen; whatever the status, the devices then reopen to the map after the first so
//!              many updates, no fewer than were synced, also after a crash, and after status 0, 1 and 5 to the map
//!              after all; each status has its cause (`specs/Scripts.antt`)
//! Goes in      the words of a command line, and a host: devices at a place, a source, a sink, a place for notes
//! Comes out    a status, and a line of the notes for each status but 0
//! Stands on    host_model, store_run, session_core, frame_journal, disk_model, disk_real, link_model, fault_count,
//!              wire_protocol, history_core, rdb_base
//! Begin at     src/program.rt, `program`; src/top.rt, `remixdb`
//! Leaves open  what the standard streams and the files of a folder hold
#![tactic(auto)]

mod arguments;
mod command;
mod device_counts;
mod outcome;
mod program;
mod script;
mod system_host;
#[cfg(test)]
mod tests;
mod top;

use crate::arguments::ArgumentsError;
use crate::outcome::Outcome;
use crate::program::program;
use crate::system_host::SystemHost;
use std::env;
use std::io::{ErrorKind, Write};
use std::process::ExitCode;

/// The arguments that the system gives, the program's name first.
fn arguments_of(rt: &HostRuntime) -> Result<Vec<String>, ArgumentsError> {
    match env::args(rt) {
        Ok(arguments) => match arguments.collect(rt.alloc()) {
            Ok(arguments) => Ok(arguments),
            Err(_) => Err(ArgumentsError::Memory),
        },
        Err(error) if error.kind() == ErrorKind::OutOfMemory => Err(ArgumentsError::Memory),
        Err(_) => Err(ArgumentsError::NotText),
    }
}

/// Out of memory before there is a host: the line and the status of it.
fn without_host(rt: &HostRuntime) -> ExitCode {
    if let Some(line) = Outcome::OutOfMemory.fixed_line() {
        let _ = rt.stderr().write_all(line.as_bytes());
    }
    ExitCode::from(Outcome::OutOfMemory.status())
}

fn main(rt: HostRuntime) -> ExitCode {
    let Ok(mut host) = SystemHost::new(rt.alloc(), &rt, rt.stdin(), rt.stdout(), rt.stderr()) else {
        return without_host(&rt);
    };
    let status = match arguments_of(&rt) {
        Ok(arguments) => program(rt.alloc(), Ok(&arguments), &mut host),
        Err(error) => program(rt.alloc(), Err(error), &mut host),
    };
    ExitCode::from(status)
}
