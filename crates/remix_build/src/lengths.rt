ghost use Rattle.std.specs.Prelude.{◌<◌, ◌≤◌, ◌^◌, length, map};
ghost use Rattle.std.specs.List.{AllByRecursion};
ghost use Rattle.rdb_base.specs.Runs.{IsRun};
ghost use Rattle.remix_build.specs.Packing.{AreRuns};

use remix_seek::Runs;

/// Asks each run for its length, whose contract tells that its keys rise and that it is shorter than 2^32.
pub(crate) fn ask_lengths<T: Runs>(runs: &[T])
    ensures { AreRuns (map T.run runs.now) }
{
    'runs: for run in runs {
        let _pairs = run.len();
    }
}
