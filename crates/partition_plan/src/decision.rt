/// What a compaction does with the new data of a partition.
#[derive(Clone, Copy, Debug, PartialEq, Eq)]
pub enum Decision {
    /// They are carried on to the next compaction. The partition stays as it is.
    Abort,
    /// They become a run above the partition's runs.
    Minor,
    /// They are merged with all runs of the partition into one run.
    Major,
    /// They are merged with all runs of the partition, and its rows are cut into several partitions.
    Split,
}
