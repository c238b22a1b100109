// What a table holds: how many rows, the row at a place, the first row with a key.
ghost use Rattle.std.specs.Prelude.{◌≡◌, [], length, MatchOption};
ghost use Rattle.std.specs.List.{slice_get};
ghost use Rattle.table.specs.Contents.{rows_of, room};
ghost use Rattle.table.specs.Rows.{NoRow, FirstRow};

use crate::at::row_at;
use crate::find::find;
use crate::row::Row;
use crate::table::Table;

impl<'a, R: Copy> Table<'a, R> {
    /// An empty table with room for as many rows as are lent. What they hold is free.
    pub fn new(rows: &'a mut [R]) -> Table<'a, R>
        ensures items { rows_of result ≡ [] }
        ensures capacity { room result ≡ length rows.old }
        ensures lent { result.rows ≡ rows.entry }
    {
        Table { rows, len: 0 }
    }

    /// How many rows are in use.
    pub fn len(&self) -> usize
        ensures value { result ≡ length (rows_of self.now) }
    {
        self.used().len()
    }

    /// How many rows there is room for.
    pub fn capacity(&self) -> usize
        ensures value { result ≡ room self.now }
    {
        self.rows.len()
    }

    /// The row at the place, or none where no row stands there.
    pub fn get(&self, place: usize) -> Option<R>
        ensures value { result ≡ slice_get (rows_of self.now) place }
    {
        row_at(self.used(), place)
    }

    /// The place of the first row that has the key, or none where no row has it.
    pub fn find<K>(&self, key: &K) -> Option<usize>
    where
        R: Row<K>,
        ensures cases { MatchOption result (NoRow (λ x. R.Row.has x key.now) (rows_of self.now)) (FirstRow (λ x. R.Row.has x key.now) (rows_of self.now)) }
    {
        find(self.used(), key)
    }

    // The rows in use.
    fn used(&self) -> &[R]
        ensures value { result.now ≡ rows_of self.now }
    {
        &self.rows[..self.len]
    }
}
