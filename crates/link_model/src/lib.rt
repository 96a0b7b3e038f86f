//! Byte streams in and out, each with a count of its faults.
//!
//! Stands for   the bytes that a source has left and those that a sink took, where contracts can see
//!              them, and how often each failed (`specs/Streams.antt`)
//! Promises     a take gives the front of what is left, and a put adds its piece at the end; each call
//!              that fails raises the stream's own count by one, and nothing else does. A sink over a
//!              writer holds back 65,536 bytes at most; an empty piece, if it succeeds, leaves none
//! Goes in      pieces of bytes; in memory, the bytes, a room, and the calls that are to fail; a
//!              reader and a writer of the system
//! Comes out    the bytes; `Failed`, with its count raised
//! Stands on    fault_count
//! Begin at     src/source.rt, `Source::take`; src/sink.rt, `Sink::put`; src/pairing.rt, `stream_pair`
//! Leaves open  that a call succeeds; what a stream of the system has and takes
#![tactic(auto)]

mod ahead;
mod attempts;
mod byte_sink;
mod byte_source;
mod failed;
mod filling;
mod limits;
mod outgoing;
mod pairing;
mod patience;
mod reader_source;
mod sink;
mod source;
mod steady_sink;
mod steady_source;
mod writer_sink;

pub use byte_sink::ByteSink;
pub use byte_source::ByteSource;
pub use failed::Failed;
pub use pairing::stream_pair;
pub use reader_source::ReaderSource;
pub use sink::Sink;
pub use source::Source;
pub use steady_sink::SteadySink;
pub use steady_source::SteadySource;
pub use writer_sink::WriterSink;

#[cfg(test)]
mod tests;
