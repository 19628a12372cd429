// What boards tell one another over the wire.
ghost use Rattle.std.specs.Prelude.{◌≡◌};
ghost use Rattle.turns.specs.Notes.{kind_of, label_of, word_of};

use crate::round::Round;
use records::event::{Board, Label, Word};

// what a message says
#[derive(Clone, Copy, PartialEq, Eq, Debug)]
pub enum Note {
    // a word, under its sender's label
    Word { label: Label, word: Word },
    // take part in the round, if the label shows that you must
    Ask { round: Round, label: Label },
    // the answer to an ask
    Reply { yes: bool },
    // how the round ended
    Decision { round: Round, agreed: bool },
}

#[derive(Clone, Copy, PartialEq, Eq, Debug)]
pub struct Message {
    pub from: Board,
    pub to: Board,
    pub note: Note,
}

impl Note {
    // The number of its kind, as reports have it.
    pub fn kind(self) -> u32
        ensures { result ≡ kind_of self }
    {
        match self {
            Note::Word { .. } => 1,
            Note::Ask {
                round: Round::Save,
                ..
            } => 2,
            Note::Reply { yes: true } => 3,
            Note::Reply { yes: false } => 4,
            Note::Decision {
                round: Round::Save,
                agreed: true,
            } => 5,
            Note::Decision {
                round: Round::Save,
                agreed: false,
            } => 6,
            Note::Ask {
                round: Round::Back,
                ..
            } => 7,
            Note::Decision {
                round: Round::Back,
                agreed: true,
            } => 8,
            Note::Decision {
                round: Round::Back,
                agreed: false,
            } => 9,
        }
    }

    // 0 where it has none.
    pub fn label(self) -> Label
        ensures { result ≡ label_of self }
    {
        match self {
            Note::Word { label, .. } | Note::Ask { label, .. } => label,
            Note::Reply { .. } | Note::Decision { .. } => 0,
        }
    }

    // 0 where it has none.
    pub fn word(self) -> Word
        ensures { result ≡ word_of self }
    {
        match self {
            Note::Word { word, .. } => word,
            _ => 0,
        }
    }
}
