// The journal: a store that only ever appends entries to memory handed to it.
#![tactic(auto)]

pub mod entry;
mod log;
pub mod memory;
pub mod vectors;
