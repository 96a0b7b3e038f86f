//! How an edition lies in a frame of a manifest strip. These numbers are part of the format on disk.

/// Bytes before the partitions: the edition's number, the next number, the first live segment, and how many partitions.
pub const HEAD_LEN: usize = 28;

const _: () = prove!(HEAD_LEN == 8 + 8 + 8 + 4);

/// The most partitions of an edition. It has at least one.
pub const PARTITIONS_MAX: usize = 4096;

const _: () = prove!(PARTITIONS_MAX == 4096);

/// The most bytes of a low bound in the first format of editions. The first bound is empty, the others are not.
pub const LOW_MAX: usize = 1024;

const _: () = prove!(LOW_MAX == 1024);

/// The most runs of a partition.
pub const RUNS_MAX: usize = 8;

const _: () = prove!(RUNS_MAX == 8);

/// Bytes of a SHA-256 digest.
pub const DIGEST_LEN: usize = 32;

const _: () = prove!(DIGEST_LEN == 32);

/// Bytes of a file's field: its number, its length and its digest.
pub const FILE_LEN: usize = 48;

const _: () = prove!(FILE_LEN == 8 + 8 + DIGEST_LEN);

/// Bytes of a partition before its runs, beside its low bound: the bound's length, the base number, how many runs.
pub const PART_HEAD: usize = 11;

const _: () = prove!(PART_HEAD == 2 + 8 + 1);

/// Bytes of a partition beside its low bound and its runs: its head and its index.
pub const PART_LEN: usize = 59;

const _: () = prove!(PART_LEN == PART_HEAD + FILE_LEN);

/// The most bytes of a partition.
pub const PART_MAX: usize = 1467;

const _: () = prove!(PART_MAX == PART_LEN + LOW_MAX + RUNS_MAX * FILE_LEN);

/// The most bytes of an edition.
pub const EDITION_MAX: usize = 6_008_860;

const _: () = prove!(EDITION_MAX == HEAD_LEN + PARTITIONS_MAX * PART_MAX);
