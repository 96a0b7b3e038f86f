/// The most leaves that a table uses.
pub const LEAVES_MAX: usize = 1_024;

const _: () = prove!(LEAVES_MAX == 1_024);
