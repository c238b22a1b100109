// Paths on Unix, as bytes: the file name, the parent, and a name joined to a base.
#![tactic(auto)]

pub mod join;
pub mod name;
mod piece;
mod root;
