// What a board knows of the round that it is in.
ghost use Rattle.std.specs.Prelude.{◌≡◌, cond, nat_lt};
ghost use Rattle.protocol.specs.Rows.{new_role};
ghost use Rattle.protocol.specs.Rounds.{role_counted};
ghost use Rattle.rows.specs.Rowed.{role_of};

use crate::set::without;
use records::event::Board;
use turns::round::Phase;

#[derive(Clone, Copy, PartialEq, Eq, Debug)]
pub struct Role {
    pub phase: Phase,
    // the board that asked it; the starter is its own asker
    pub asker: Board,
    // the boards that it asked, as bits
    pub cohort: u32,
    // those of them whose answers it waits for, as bits
    pub awaited: u32,
    // its answer so far
    pub answer: bool,
}

impl Role {
    // Of a board that is in no round.
    pub fn new() -> Role
        ensures { role_of result ≡ new_role }
    {
        Role {
            phase: Phase::Free,
            asker: 0,
            cohort: 0,
            awaited: 0,
            answer: false,
        }
    }

    // An answer of a board is counted: it is no longer awaited, and a no makes the answer no. Answers whether the number
    // is below 32, as every board's is; else nothing changes.
    pub fn count_answer(&mut self, from: Board, agrees: bool) -> bool
        ensures answer { result ≡ nat_lt from 32 }
        ensures after { role_of self.new ≡ cond result (role_counted (role_of self.old) from agrees) (role_of self.old) }
    {
        if from >= u32::BITS {
            return false;
        }
        self.awaited = without(self.awaited, from);
        self.answer &= agrees;
        true
    }
}
