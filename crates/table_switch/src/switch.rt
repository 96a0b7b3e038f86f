ghost use Rattle.std.specs.Prelude.{◌≡◌, [], Some, IfOk, IfSome, length, drop};
ghost use Rattle.std.specs.List.{AllByRecursion};
ghost use Rattle.left_right.specs.Sides.{view};
ghost use Rattle.table_switch.specs.Published.{IsWhole};

use crate::ends::{Ends, RawWriter};
use crate::roll::Roll;
use crate::trie_copy::TrieCopy;
use crate::trie_reader::TrieReader;
use crate::trie_writer::TrieWriter;
use left_right::writer::Writer;
use meta_trie::MetaTrie;
use rdb_base::NoMemory;
use std::alloc::Global;

/// A published trie, in two copies: readers read one while the writer changes the other.
pub struct Switch;

impl Switch {
    /// A trie of the empty anchor: its writer, and a place for each caller. A caller without a place has `None`. `ender`
    /// begins the writer, and ends it when it is dropped.
    pub fn make<E: Ends>(
        alloc: Global,
        callers: u32,
        ender: E,
    ) -> Result<(TrieWriter<E>, Vec<Option<TrieReader>>), NoMemory>
        ensures published { IfOk result (λ made. made.0.published ≡ []) }
        ensures pending { IfOk result (λ made. made.0.pending ≡ []) }
        ensures places { IfOk result (λ made. length made.1.items ≡ callers) }
        ensures readers { IfOk result (λ made. AllByRecursion (λ place. IfSome place (λ reader.
            reader ≡ record { switch = made.0.switch; anchors = [] })) made.1.items) }
    {
        let mut writer = writer_of(alloc, callers, ender)?;
        let places = places_of(alloc, &mut writer, callers)?;
        Ok((writer, places))
    }
}

/// A writer with room for so many readers.
fn writer_of<E: Ends>(alloc: Global, callers: u32, ender: E) -> Result<TrieWriter<E>, NoMemory>
    ensures published { IfOk result (λ writer. writer.published ≡ []) }
    ensures pending { IfOk result (λ writer. writer.pending ≡ []) }
{
    let roll = Roll::open();
    let first = TrieCopy::make(alloc, roll.front())?;
    let second = TrieCopy::make(alloc, roll.front())?;
    let appended = MetaTrie::make(alloc)?;
    // The two copies want room for one reader at least.
    let idle = Writer::new(alloc, first, second, callers.max(1) as usize)?;
    let writer = begun(&ender, idle)?;
    Ok(TrieWriter {
        writer,
        appended,
        roll,
        waiting: None,
        ender,
    })
}

/// The writer, once its seat knows of which switch it is. Out of memory, it is ended.
fn begun<E: Ends>(ender: &E, writer: RawWriter) -> Result<RawWriter, NoMemory>
    requires whole { IsWhole writer.desk.shown.value }
    requires idle { drop writer.behind writer.log.items ≡ [] }
    ensures shown { IfOk result (λ made. made.desk.shown.value ≡ writer.desk.shown.value) }
    ensures idle { IfOk result (λ made. drop made.behind made.log.items ≡ []) }
    ensures known { IfOk result (λ made. view made.desk.place ≡ Some writer.desk.shown.value.front) }
{
    let (writer, done) = ender.begin(writer);
    match done {
        Ok(()) => Ok(writer),
        Err(error) => {
            ender.end(writer);
            Err(error)
        }
    }
}

/// So many places.
fn places_of<E: Ends>(
    alloc: Global,
    writer: &mut TrieWriter<E>,
    callers: u32,
) -> Result<Vec<Option<TrieReader>>, NoMemory>
    ensures same { writer.new ≡ writer.old }
    ensures places { IfOk result (λ places. length places.items ≡ callers) }
    ensures readers { IfOk result (λ places. AllByRecursion (λ place. IfSome place (λ reader.
        reader ≡ record { switch = writer.old.switch; anchors = writer.old.published })) places.items) }
{
    let mut places = Vec::with_capacity(alloc, callers as usize)?;
    'callers: for _ in 0..callers {
        places.push(writer.reader())?;
    }
    Ok(places)
}
