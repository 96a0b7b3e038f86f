//! What the words of a command line ask for.
ghost use Rattle.std.specs.Prelude.{◌↔◌, IsTrue, IfOk, IsSome};
ghost use Rattle.remixdb.specs.Words.{IsPlace, IsScript};

use host_model::{Place, Word};
use rdb_base::NoMemory;
use std::alloc::Global;

/// What the program can be asked to do.
pub(crate) enum Command {
    /// One session from the source to the sink, over the store whose devices are at this place.
    Script(Place),
}

fn is_place(word: &Word) -> bool
    ensures { IsTrue result ↔ IsPlace word.now }
{
    match word.as_bytes() {
        [] => false,
        [first, ..] => *first != b'-',
    }
}

/// The place that a word names: `mem`, or else a folder.
fn place_of(alloc: Global, word: &Word) -> Result<Place, NoMemory> {
    if word.is(b"mem") {
        return Ok(Place::Memory);
    }
    Ok(Place::Folder(word.try_copy(alloc)?))
}

/// The place, where the words are `script` and a place.
fn script_place(words: &[Word]) -> Option<&Word>
    ensures { IsSome result ↔ IsScript words.now }
{
    match words {
        [command, place] if command.is(b"script") && is_place(place) => Some(place),
        _ => None,
    }
}

/// The command that the words spell, if they are in the stated form.
pub(crate) fn command_of(alloc: Global, words: &[Word]) -> Option<Result<Command, NoMemory>>
    ensures { IsSome result ↔ IsScript words.now }
{
    let place = script_place(words)?;
    match place_of(alloc, place) {
        Ok(place) => Some(Ok(Command::Script(place))),
        Err(error) => Some(Err(error)),
    }
}
