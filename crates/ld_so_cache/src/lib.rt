// The loader's cache, `ld.so.cache`: a check of the whole table, and a search for a library in it.
#![tactic(auto)]

pub mod cache;
pub mod fault;
