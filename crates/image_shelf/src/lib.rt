// A shelf of ELF images: rows of path and image over one slice of bytes.
#![tactic(auto)]

pub mod check;
mod entry;
mod files;
pub mod images;
pub mod make;
mod object;
pub mod questions;
pub mod rows;
mod sections;
mod texts;
