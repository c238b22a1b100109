// Changing a table: a row put at its end, put in the place of another, or taken out.
ghost use Rattle.std.specs.Prelude.{◌≡◌, ◌<◌, ◌≤◌, [], ◌∷◌, ◌++◌, length, MatchResult, slice_set};
ghost use Rattle.std.specs.List.{remove, slice_get};
ghost use Rattle.table.specs.Contents.{SameMemory, rows_of, room};

use crate::full::TableFull;
use crate::table::Table;

// Each change says that the memory stays: that is about two states, so no invariant of the type can say it.
impl<'a, R: Copy> Table<'a, R> {
    /// Puts a row after the others. Refused exactly when the table is full; it is then as it was.
    pub fn put(&mut self, row: R) -> Result<(), TableFull>
        ensures cases { MatchResult result (λ _. (length (rows_of self.old) < room self.old) × (rows_of self.new ≡ rows_of self.old ++ row ∷ [])) (λ full. (length (rows_of self.old) ≡ room self.old) × (full.capacity ≡ room self.old) × (self.new ≡ self.old)) }
        ensures memory { SameMemory self.old self.new }
    {
        let capacity = self.rows.len();
        if self.len == capacity {
            return Err(TableFull { capacity });
        }
        self.rows[self.len] = row;
        self.len += 1;
        Ok(())
    }

    /// Puts a row in the place of another and answers with that one, or with none where no row
    /// stands there; the table is then as it was.
    pub fn replace(&mut self, place: usize, row: R) -> Option<R>
        ensures value { result ≡ slice_get (rows_of self.old) place }
        ensures items { rows_of self.new ≡ slice_set (rows_of self.old) place row }
        ensures same { length (rows_of self.old) ≤ place → self.new ≡ self.old }
        ensures memory { SameMemory self.old self.new }
    {
        let old = self.get(place);
        if place < self.len {
            self.rows[place] = row;
        }
        old
    }

    /// Takes a row out and answers with it, or with none where no row stands there; the table is
    /// then as it was. The rows after it move up, and all keep their order.
    pub fn remove(&mut self, place: usize) -> Option<R>
        ensures value { result ≡ slice_get (rows_of self.old) place }
        ensures items { rows_of self.new ≡ remove (rows_of self.old) place }
        ensures same { length (rows_of self.old) ≤ place → self.new ≡ self.old }
        ensures memory { SameMemory self.old self.new }
    {
        let taken = self.get(place);
        if place < self.len {
            self.close_up(place);
        }
        taken
    }

    // Takes the row at the place out.
    fn close_up(&mut self, place: usize)
        requires within { place < self.old.len }
        ensures items { rows_of self.new ≡ remove (rows_of self.old) place }
        ensures memory { SameMemory self.old self.new }
    {
        self.rows.copy_within(place + 1..self.len, place);
        self.len -= 1;
    }
}
