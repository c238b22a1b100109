// A shelf that is listed: rows of files, symbols and sections over one text.
#![tactic(auto)]

pub mod check;
mod extent;
pub mod listed;
mod parts;
pub mod questions;
pub mod rows;
mod sections;
