// Stores of checkpoints, by what they mean.
#![tactic(auto)]

pub mod refusal;
pub mod slots;
pub mod traits;
