// The rules of the turns as definitions (specs/), and what is promised of every run.
#![tactic(auto)]

pub mod laws;

// the turns themselves, beside their rules
pub use turns::turn;
