//! What the words say to do.
use crate::load::{Load, Merges, Plans};
use std::env::{self, Args};

fn number(args: &mut Args) -> Option<u32> {
    let word = args.next()?;
    word.as_str().parse::<u32>().ok()
}

/// The numbers of runs, of keys, of new pairs, and of merges.
fn merges_of(args: &mut Args) -> Option<Merges> {
    let runs = u8::try_from(number(args)?).ok()?;
    let keys = number(args)?;
    let new = number(args)?;
    let times = number(args)?;
    if runs > 8 || keys == 0 {
        return None;
    }
    Some(Merges {
        runs,
        keys,
        new,
        times,
    })
}

/// The numbers of members, and of plans.
fn plans_of(args: &mut Args) -> Option<Plans> {
    let members = number(args)?;
    let times = number(args)?;
    Some(Plans { members, times })
}

pub(crate) fn load_of(rt: &HostRuntime) -> Option<Load> {
    let Ok(mut args) = env::args(rt) else {
        return None;
    };
    let _program = args.next();
    let word = args.next()?;
    match word.as_str() {
        "merge" => Some(Load::Merge(merges_of(&mut args)?)),
        "hold" => Some(Load::Hold(merges_of(&mut args)?)),
        "plan" => Some(Load::Plan(plans_of(&mut args)?)),
        _ => None,
    }
}
