// What a board's record is, and what its story makes of it.
#![tactic(auto)]

pub mod event;
pub mod feed;
pub mod harness;
pub mod part;
mod pick;
pub mod vectors;
