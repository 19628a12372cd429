// What a board notes: marks, its role in a round, its row; and sets of boards.
#![tactic(auto)]

mod mark;
pub mod marks;
pub mod phase;
pub mod role;
pub mod row;
pub mod set;
