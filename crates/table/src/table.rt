// A table of rows: the struct alone. Its functions cite definitions that name it, and stand in contents.rt and edits.rt.
ghost use Rattle.std.specs.Prelude.{◌≤◌, length};

/// A table of rows, kept in order at the front of memory that is lent for writing. What the spare
/// rows after them hold is free, and no contract speaks of it.
#[derive(Drop)]
pub struct Table<'a, R> {
    // the rows in use, and after them the spare ones
    pub(crate) rows: &'a mut [R],
    // how many rows are in use: a length beside the rows, since the memory is the caller's and no heap is used
    pub(crate) len: usize,
    ghost ok: { len ≤ length rows.now },
}
