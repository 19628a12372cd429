// What happens to a board, as its story tells it: a story is a list of events, the earliest first.

// a board of a loom, counted from 0
pub type Board = u32;

// what one board says to another: 32 bits
pub type Word = u32;

// counts the words that a board has sent, from 1
pub type Label = u32;

#[derive(Clone, Copy, PartialEq, Eq, Debug)]
pub enum Event {
    Worked {
        word: Word,
    },
    Sent {
        to: Board,
        label: Label,
        word: Word,
    },
    Heard {
        from: Board,
        label: Label,
        word: Word,
    },
}
