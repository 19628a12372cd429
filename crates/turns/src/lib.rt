// What boards do and tell one another, and what is answered: turns, rounds, messages and answers as types.
#![tactic(auto)]

pub mod answer;
pub mod making;
pub mod message;
pub mod round;
pub mod turn;
