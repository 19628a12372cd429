// Run files: the first line, then one turn after the other.
#![tactic(auto)]

pub mod file;
pub mod reader;
pub mod refusal;
