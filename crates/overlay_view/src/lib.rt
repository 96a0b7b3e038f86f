//! One listing over newer rows and a set of partitions: each row once, by places alone.
//!
//! Stands for   the rows of newer pairs above the level of a set (`specs/Cursors.antt`, `rows_over`)
//! Promises     from a seek on a cursor gives the rows from the key on, each once, in order: no older version, no
//!              deleted row (`rows_left`). To place a newer row costs one seek in its partition and one key more
//! Goes in      newer pairs, a set of partitions, a key of any bytes
//! Comes out    rows, owned or lent
//! Stands on    rdb_base, remix_view, remix_seek, partition_set; remix_build for its tests, which are not there yet
//! Begin at     src/cursor.rt, `Cursor`; src/upper.rt, `Upper::place`
//! Leaves open  that memory is there; that a cursor moves, and tells its end, without reading a key (no clause says it)
#![tactic(auto)]

mod cursor;
mod head;
mod lent_row;
mod older;
mod placement;
mod placing;
mod reads;
mod set_place;
mod upper;

pub use cursor::Cursor;
pub use lent_row::LentRow;
pub use upper::Upper;
