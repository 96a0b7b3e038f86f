//! The arguments that the system gives.
ghost use Rattle.std.specs.Prelude.{◌≡◌, IfOk};
ghost use Rattle.remixdb.specs.Words.{words_after_name};

use host_model::Word;
use rdb_base::NoMemory;
use std::alloc::Global;

/// Why the arguments cannot be read.
#[derive(Clone, Copy, Debug, PartialEq, Eq)]
pub enum ArgumentsError {
    /// One is no text, or the system gives none.
    NotText,
    /// Out of memory.
    Memory,
}

/// The words after the program's name, which is the first argument.
pub(crate) fn words_of(alloc: Global, arguments: &[String]) -> Result<Vec<Word>, NoMemory>
    ensures { IfOk result (λ words. words.items ≡ words_after_name arguments.now) }
{
    let mut words = Vec::new(alloc);
    let Some((_, rest)) = arguments.split_first() else {
        return Ok(words);
    };
    'words: for argument in rest {
        words.push(Word::try_new(alloc, argument.as_str())?)?;
    }
    Ok(words)
}
