// What a journal is made of.
ghost use Rattle.std.specs.Prelude.{◌≡◌};
ghost use Rattle.journal.specs.Logs.{kind_number};

// what an entry tells of its board: its first record, or that one was put, kept or dropped
#[derive(Clone, Copy, PartialEq, Eq, Debug)]
pub enum EntryKind {
    First = 0,
    Put = 1,
    Keep = 2,
    Discard = 3,
}

// Every kind has all four, since the format has them: `Keep` and `Discard` hold the first record, and the entry before is
// told by its place.
#[derive(Clone, Copy)]
pub struct Entry<R> {
    pub board: usize,
    pub kind: EntryKind,
    pub state: R,
    // the place of the board's entry before; an entry of kind First has its own place
    pub back: usize,
}

impl EntryKind {
    pub fn number(self) -> u32
        ensures { result ≡ kind_number self }
    {
        self as u32
    }
}
