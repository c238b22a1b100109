// ELF images: where their fields lie, and where an image has its sections, symbols, debuglink and build id.
#![tactic(auto)]

pub mod header;
pub mod image;
pub mod kind;
pub mod layout;
mod link;
mod notes;
pub mod places;
pub mod section;
pub mod sections;
pub mod symbol;
mod tables;
