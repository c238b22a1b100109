// The memory maps of a process, as /proc/PID/maps lists them: its lines, and a library's path in them.
#![tactic(auto)]

pub mod cursor;
pub mod entry;
pub mod fault;
pub mod find;
pub mod lines;
mod words;
