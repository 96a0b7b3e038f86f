//! Whole runs over a host in memory: the bytes, the strip, the status and the note.
mod devices;
mod messages;
mod notes;
mod piece_host;
mod piece_source;
mod reopening;
mod running;
mod samples;
mod sessions;
mod settling;
mod words;
