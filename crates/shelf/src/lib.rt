// Object files by their meaning alone: what can be asked of a shelf of files, and what the answers say.
#![tactic(auto)]

pub mod fault;
pub mod files;
pub mod object;
pub mod paths;
pub mod text;
