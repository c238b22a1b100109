// From the name that a caller gives to the path of the file to probe.
#![tactic(auto)]

pub mod fault;
pub mod scope;
pub mod target;
