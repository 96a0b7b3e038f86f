//! The numbers of the compaction plan. Sizes are in bytes, as `rdb_base::size` counts them.

/// New data of a partition may be carried on if they are below this size.
pub const SMALL_BELOW: u64 = 65_536;

const _: () = prove!(SMALL_BELOW == 65536);

/// The most that one plan carries on, in all partitions together.
pub const CARRIED_MAX: u64 = 1_048_576;

const _: () = prove!(CARRIED_MAX == 1048576);

/// The most that the number of the log segment in use may be above that of the oldest entry that is carried on.
pub const AGE_MAX: u64 = 5;

const _: () = prove!(AGE_MAX == 5);

/// The most runs of a partition.
pub const RUNS_MAX: u32 = 8;

const _: () = prove!(RUNS_MAX == 8);

/// The most that all pairs of a partition have together, where it can be helped.
pub const PARTITION_MAX: u64 = 4_194_304;

const _: () = prove!(PARTITION_MAX == 4194304);

/// The most that the rows of one part of a split have together.
pub const PART_MAX: u64 = 2_097_152;

const _: () = prove!(PART_MAX == 2097152);

/// The most partitions that a split may leave.
pub const PARTITIONS_MAX: u32 = 4_096;

const _: () = prove!(PARTITIONS_MAX == 4096);
