// Reports: turn lines, then board lines, then the last line.
#![tactic(auto)]

mod digits;
pub mod line;
pub mod lines;
mod place;
pub mod spell;
pub mod state;
pub mod writer;
