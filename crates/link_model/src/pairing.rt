//! A source and a sink over a reader and a writer of the system, as one pair.
ghost use Rattle.std.specs.Prelude.{◌≡◌, [], IfOk};

use crate::ahead::Ahead;
use crate::attempts::Attempts;
use crate::outgoing::Outgoing;
use crate::reader_source::ReaderSource;
use crate::writer_sink::WriterSink;
use fault_count::FaultCount;
use std::alloc::{AllocError, Global};
use std::io::{Read, Write};
use std::sync::{Arc, Mutex};

/// Makes a source over `reader` and a sink over `writer` that share what the sink holds back: the
/// source passes it on before it waits for input. The pair may move to another thread. Each end calls
/// the other's half only for the length of one call; if both are in a call at once, in two threads,
/// the later one fails.
///
/// `AllocError` comes if memory has no room for their two buffers. The reader and the writer are let
/// go then.
pub fn stream_pair<R: Read + Drop, W: Write + Drop>(
    alloc: Global,
    reader: R,
    writer: W,
) -> Result<(ReaderSource<R, W>, WriterSink<W>), AllocError>
    ensures source { IfOk result (λ pair. pair.0.faults ≡ 0) }
    ensures reader { IfOk result (λ pair. pair.0.reader.stream ≡ reader) }
    ensures ahead { IfOk result (λ pair. pair.0.ahead ≡ []) }
    ensures sink { IfOk result (λ pair. pair.1.faults ≡ 0) }
{
    let ahead = Ahead::new(alloc)?;
    let outgoing = Arc::new(alloc, Mutex::new(Outgoing::new(alloc, writer)?))?;
    let sink = WriterSink {
        outgoing: Arc::try_clone(&outgoing)?,
        faults: FaultCount::new(),
        is_passed_on: true,
    };
    let source = ReaderSource {
        reader: Attempts::new(reader),
        ahead,
        outgoing,
        faults: FaultCount::new(),
    };
    Ok((source, sink))
}
