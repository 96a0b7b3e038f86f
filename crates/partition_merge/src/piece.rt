use rdb_base::SortedRun;
use std::marker::Model;

/// A partition that a compaction makes of another one, or of a part of its rows.
#[derive(Drop)]
pub struct Piece {
    /// Its low bound.
    pub low: Vec<u8>,
    /// Whether the old runs of the partition stay, below its new run.
    pub keeps_old: bool,
    /// Its new run, where it has one.
    pub run: Option<SortedRun>,
}

impl Model for Piece {
    ghost use Rattle.partition_plan.specs.Pieces.{PieceState};

    ghost Value = { PieceState };

    ghost view = { λ p. record {
      low = p.low.items;
      keeps_old = p.keeps_old;
      run = p.run;
    } };

    ghost invariant = { λ p. Unit {0} };
}
