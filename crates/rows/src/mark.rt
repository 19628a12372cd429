// What a board notes of one other board.
ghost use Rattle.std.specs.Prelude.{◌≡◌};
ghost use Rattle.rows.specs.Notes.{said, told, set_aside, kept, brought_back, gone_back};

use records::event::Label;

// labels; 0 is no label
#[derive(Clone, Copy, Default, PartialEq, Eq, Debug)]
pub(crate) struct Mark {
    // the last one heard from it in the own story since the last checkpoint, standing or pending
    pub heard: Label,
    // the first one sent to it in the own story since then
    pub first: Label,
    // the last one sent to it in the own story
    pub sent: Label,
    // the last one sent to it in the kept story
    pub saved: Label,
    // heard and first as a pending checkpoint set them aside
    pub heard_aside: Label,
    pub first_aside: Label,
}

impl Mark {
    // A word leaves for the board under the label.
    pub(crate) fn sent(self, label: Label) -> Mark
        ensures { result ≡ said label self }
    {
        Mark {
            first: if self.first == 0 { label } else { self.first },
            sent: label,
            ..self
        }
    }

    // A word of the board is heard under the label.
    pub(crate) fn heard(self, label: Label) -> Mark
        ensures { result ≡ told label self }
    {
        Mark {
            heard: label,
            ..self
        }
    }

    // A checkpoint is taken.
    pub(crate) fn set_aside(self) -> Mark
        ensures { result ≡ set_aside self }
    {
        Mark {
            heard: 0,
            first: 0,
            heard_aside: self.heard,
            first_aside: self.first,
            ..self
        }
    }

    // The checkpoint is kept.
    pub(crate) fn keep(self) -> Mark
        ensures { result ≡ kept self }
    {
        Mark {
            saved: self.sent,
            heard_aside: 0,
            first_aside: 0,
            ..self
        }
    }

    // The checkpoint is dropped.
    pub(crate) fn bring_back(self) -> Mark
        ensures { result ≡ brought_back self }
    {
        Mark {
            heard: self.heard.max(self.heard_aside),
            first: self.first_aside,
            heard_aside: 0,
            first_aside: 0,
            ..self
        }
    }

    // The board goes back.
    pub(crate) fn go_back(self) -> Mark
        ensures { result ≡ gone_back self }
    {
        Mark {
            heard: 0,
            first: 0,
            sent: self.saved,
            heard_aside: 0,
            first_aside: 0,
            ..self
        }
    }
}
