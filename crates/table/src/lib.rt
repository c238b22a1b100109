// Tables of rows of any kind that can tell its key: finding a row, and keeping rows in memory that is lent.
#![tactic(auto)]

pub mod at;
pub mod contents;
pub mod edits;
pub mod find;
pub mod full;
pub mod row;
pub mod table;
