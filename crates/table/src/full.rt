// Why a table takes no more rows.

/// The table is full: each of its rows is in use.
#[derive(Clone, Copy)]
pub struct TableFull {
    /// How many rows the table has room for.
    pub capacity: usize,
}
