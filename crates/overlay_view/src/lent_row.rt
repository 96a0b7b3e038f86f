/// A row that is lent: its key and its value.
#[derive(Clone, Copy, Debug)]
pub struct LentRow<'a> {
    pub key: &'a [u8],
    pub value: &'a [u8],
}
