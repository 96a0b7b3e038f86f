//! Lists of entries that contracts see.
ghost use Rattle.std.specs.Prelude.{◌≡◌, ◌∷◌, [], None, IfSome};
ghost use Rattle.wal_log.specs.Told.{written_of};

use rdb_base::{Entry, ToldEntries};
use std::snapshot::Snapshot;

/// What was staged is synced.
pub(crate) fn take_staged(
    synced: &mut Snapshot<ToldEntries>,
    staged: &mut Option<Snapshot<ToldEntries>>,
)
    ensures synced { synced.new.value ≡ written_of synced.old.value staged.old }
    ensures none { staged.new ≡ None }
{
    if let Some(told) = staged.take() {
        *synced = told;
    }
}

/// These entries, as contracts see them.
pub(crate) fn told_entries(entries: &[Entry]) -> ToldEntries
    ensures { result ≡ entries.now }
{
    let mut told = ToldEntries::new();
    let mut rest = entries;
    while let Some((entry, more)) = split(rest) {
        told.push(entry);
        rest = more;
    }
    told
}

/// The first entry, and those after it.
fn split(entries: &[Entry]) -> Option<(&Entry, &[Entry])>
    ensures some { IfSome result (λ x. entries.now ≡ x.0.now ∷ x.1.now) }
    ensures none { result ≡ None → entries.now ≡ [] }
{
    match entries {
        [entry, rest @ ..] => Some((entry, rest)),
        [] => None,
    }
}
