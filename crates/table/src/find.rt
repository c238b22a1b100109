// The first row that has a key.
ghost use Rattle.std.specs.Option.{MatchOption};
ghost use Rattle.table.specs.Rows.{NoRow, FirstRow};

use crate::row::Row;

/// The place of the first row that has the key, or none where no row has it.
pub fn find<K, R: Row<K>>(rows: &[R], key: &K) -> Option<usize>
    ensures cases { MatchOption result (NoRow (λ x. R.Row.has x key.now) rows.now) (FirstRow (λ x. R.Row.has x key.now) rows.now) }
{
    rows.iter().position(|row| row.is(key))
}
