// The lines of run files: the first line, which describes the loom, and turn lines.
#![tactic(auto)]

mod line;
pub mod loom;
pub mod loom_line;
mod number;
pub mod turn_line;
