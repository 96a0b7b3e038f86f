use crate::row_list::RowList;
use rdb_base::Value;

/// What an event answers.
#[derive(Debug, Drop)]
pub enum StoreAnswer {
    /// Of an event that has nothing to tell.
    Done,
    /// Of an append: the number of the entry.
    Number { number: u64 },
    /// Of a look: what the key has at the front.
    Found { front: u64, value: Option<Value> },
    /// Of a pin: its number, and its front.
    Pinned { pin: u32, front: u64 },
    /// Of a list: the rows of the page, and whether it is the last one.
    Rows { rows: RowList, end: bool },
}
