//! What a manifest keeps for contracts alone.
ghost use Rattle.std.specs.Prelude.{◌≡◌, None};
ghost use Rattle.manifest_core.specs.Told.{newest_of};

use edition_code::Edition;
use std::snapshot::Snapshot;

/// What was in doubt surely stands.
pub(crate) fn settle_told(stands: &mut Snapshot<Edition>, doubt: &mut Option<Snapshot<Edition>>)
    ensures stands { stands.new.value ≡ newest_of stands.old.value doubt.old }
    ensures none { doubt.new ≡ None }
{
    if let Some(told) = doubt.take() {
        *stands = told;
    }
}
