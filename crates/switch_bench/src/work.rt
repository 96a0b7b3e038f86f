use std::env;

/// What is timed.
#[derive(Clone, Copy)]
pub(crate) enum Work {
    /// Finds in one trie, with no switch.
    Find,
    /// Entries by the switch.
    Enter,
    /// Entries while a writer publishes about 1,000 times a second.
    Beside,
    /// Appends, and one publish at the end.
    Append,
    /// Appends with a publish after each.
    Publish,
    /// Switches that are made, used and dropped.
    Rounds,
}

/// The work of a word.
fn work_of(word: &str) -> Option<Work> {
    match word {
        "find" => Some(Work::Find),
        "enter" => Some(Work::Enter),
        "beside" => Some(Work::Beside),
        "append" => Some(Work::Append),
        "publish" => Some(Work::Publish),
        "rounds" => Some(Work::Rounds),
        _ => None,
    }
}

/// The work, the number of readers and the number of times, where the words say that.
pub(crate) fn words_of(rt: &HostRuntime) -> Option<(Work, u32, u32)> {
    let Ok(mut args) = env::args(rt) else {
        return None;
    };
    let _program = args.next();
    let work = work_of(args.next()?.as_str())?;
    let readers = args.next()?.as_str().parse::<u32>().ok()?;
    let times = args.next()?.as_str().parse::<u32>().ok()?;
    Some((work, readers, times))
}
