// What a turn answers: that it was taken, or why it was refused.
ghost use Rattle.std.specs.Prelude.{◌≡◌};
ghost use Rattle.turns.specs.Numbers.{refusal_number, answer_number, answer_kind};

pub use crate::making::MakingRefusal;
use crate::message::Note;

// Why a turn is refused; a refusal alters nothing. Each has its number.
#[derive(Clone, Copy, PartialEq, Eq, Debug)]
pub enum Refusal {
    // the state table does not have a record for each board
    WrongTable = 15,
    // there is no such board
    NoBoard = 1,
    // a board can neither send to itself nor hear itself
    SameBoard = 2,
    // the acting board is stopped
    Stopped = 3,
    // the acting board is lost
    Lost = 4,
    // the acting board is held in a round
    Held = 5,
    // the board has used its last label
    NoLabel = 6,
    // the wire has no room for a word
    WireFull = 7,
    // no message between the two boards is on the wire
    NoMessage = 8,
    // a round is open
    RoundOpen = 9,
    // the board is not willing to start a round
    Unwilling = 10,
    // the store has nothing to spare
    NoSpare = 11,
    // the board is not stopped
    NotStopped = 12,
    // willing is 0 or 1
    BadFlag = 13,
}

// A turn that is taken may have taken a message off the wire, on which the receiver acted.
pub type Answer = Result<Option<Note>, Refusal>;

impl Refusal {
    pub fn number(self) -> u32
        ensures { result ≡ refusal_number self }
    {
        self as u32
    }
}

// 0 for a turn that was taken.
pub fn answer_number(answer: Answer) -> u32
    ensures { result ≡ answer_number answer }
{
    match answer {
        Ok(_) => 0,
        Err(why) => why.number(),
    }
}

// The kind of the message that was delivered; 0 where none was.
pub fn answer_kind(answer: Answer) -> u32
    ensures { result ≡ answer_kind answer }
{
    match answer {
        Ok(Some(note)) => note.kind(),
        _ => 0,
    }
}
