ghost use Rattle.std.specs.Prelude.{◌≡◌};
ghost use Rattle.partition_set.specs.Partitions.{runs_size, most_of};

use remix_seek::Runs;

/// The sizes of runs together. The sum stands still at the greatest number.
pub(crate) fn size_of_runs<T: Runs>(runs: &[T]) -> u128
    ensures { result ≡ most_of (runs_size T.run runs.now) }
{
    let mut total: u128 = 0;
    'runs: for run in runs {
        total = total.saturating_add(run.size());
    }
    total
}
