ghost use Rattle.std.specs.Prelude.{◌≡◌, [], Some, drop, OnOk, IfOk};
ghost use Rattle.left_right.specs.Sides.{view};
ghost use Rattle.table_switch.specs.Published.{IsWhole};

use crate::front::Front;
use crate::publishing::{Known, Rises};
use crate::raw_publishing::publish_once;
use crate::told::Told;
use crate::trie_copy::TrieCopy;
use left_right::writer::Writer;
use rdb_base::NoMemory;
use std::sync::Wait;

/// The writer of the two copies. It cannot be dropped: who has it ends it by `take`, which waits for its readers.
pub type RawWriter = Writer<TrieCopy, Told, Known, Rises>;

/// What begins a writer, and ends the one that lies in a dropped `TrieWriter`.
///
/// Its calls have no bound of waiting. So a type that has such a writer can be dropped anywhere, and a call over it that
/// waits for nobody is still proved to return.
pub trait Ends: Drop {
    /// Publishes the empty trie, so that the writer's seat knows of which switch it is. There is no reader to wait for.
    fn begin(&self, writer: RawWriter) -> (RawWriter, Result<(), NoMemory>)
        requires whole { IsWhole writer.desk.shown.value }
        requires idle { drop writer.behind writer.log.items ≡ [] }
        ensures shown { OnOk result.1 (result.0.desk.shown.value ≡ writer.desk.shown.value) }
        ensures idle { OnOk result.1 (drop result.0.behind result.0.log.items ≡ []) }
        ensures known { OnOk result.1 (view result.0.desk.place ≡ Some writer.desk.shown.value.front) };

    /// Ends the writer, and gives the memory of both copies back.
    fn end(&self, writer: RawWriter);

    /// Another one, for the next writer.
    fn again(&self) -> Self;
}

/// Ends a writer by waiting for its readers, through a handle that it keeps.
#[derive(Drop)]
pub struct Waits<R: Wait + Drop + Copy> {
    rt: R,
}

impl<R: Wait + Drop + Copy> Waits<R> {
    pub fn new(rt: R) -> Waits<R> {
        Waits { rt }
    }
}

impl<R: Wait + Drop + Copy> Ends for Waits<R> {
    fn begin(&self, writer: RawWriter) -> (RawWriter, Result<(), NoMemory>) {
        publish_once(&self.rt, writer)
    }

    fn end(&self, writer: RawWriter) {
        drop(writer.take(&self.rt));
    }

    fn again(&self) -> Self {
        Waits { rt: self.rt }
    }
}
