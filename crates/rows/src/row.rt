// A board's row: its marks and standing facts.
ghost use Rattle.std.specs.Prelude.{◌≡◌, cond, is_some, nat_le};
ghost use Rattle.protocol.specs.Rows.{new_row};
ghost use Rattle.protocol.specs.Rounds.{able, says_yes, row_drawn, row_carried, row_sent};
ghost use Rattle.rows.specs.Rowed.{next_label, row_of};

use crate::marks::Marks;
use crate::role::Role;
use records::event::{Board, Label};
use turns::round::{Phase, Round};

// the last label that a board uses
const LAST_LABEL: Label = 1_000_000;

#[derive(Clone, Copy, PartialEq, Eq, Debug)]
pub struct Row {
    pub up: bool,
    pub lost: bool,
    pub willing: bool,
    // how many words it has sent, those since cut back included
    pub count: Label,
    pub role: Role,
    pub marks: Marks,
}

impl Row {
    // Of a new board: up, not lost, willing, free, with nothing noted.
    pub fn new() -> Row
        ensures { row_of result ≡ new_row }
    {
        Row {
            up: true,
            lost: false,
            willing: true,
            count: 0,
            role: Role::new(),
            marks: Marks::new(),
        }
    }

    // Whether a free board that needs to can take part, with this spare of the store.
    pub fn able(&self, round: Round, spare: usize) -> bool
        ensures { result ≡ able round (row_of self.now) spare }
    {
        match round {
            Round::Save => self.willing && !self.lost && spare > 0,
            Round::Back => self.willing || self.lost,
        }
    }

    // Whether a free board says yes, if it does not take part.
    pub fn says_yes(&self, round: Round, needed: bool) -> bool
        ensures { result ≡ says_yes round (row_of self.now) needed }
    {
        match round {
            Round::Save => self.willing && !self.lost && !needed,
            Round::Back => (self.willing || self.lost) && !needed,
        }
    }

    // A word leaves for a board under the next label, which is answered; none for a number that no loom's board has, or
    // after the last label, and then nothing changes.
    pub fn send(&mut self, to: Board) -> Option<Label>
        ensures answer { result ≡ next_label (row_of self.old) to }
        ensures after { row_of self.new ≡ cond (is_some result) (row_sent (row_of self.old) to) (row_of self.old) }
    {
        if self.count >= LAST_LABEL || !self.marks.sent(to, self.count + 1) {
            return None;
        }
        self.count += 1;
        Some(self.count)
    }

    // The board, this one of so many, is drawn into the round by the asker: by taking a checkpoint, or by joining a
    // going back. Answers false, and changes nothing, for more boards than a loom has.
    pub fn draw_in(&mut self, round: Round, board: Board, asker: Board, boards: u32) -> bool
        ensures answer { result ≡ nat_le boards 19 }
        ensures after { row_of self.new ≡ cond result (row_drawn boards round board asker (row_of self.old)) (row_of self.old) }
    {
        let Some(cohort) = self.marks.cohort(round, board, boards) else {
            return false;
        };
        self.role = Role {
            phase: Phase::Gathering(round),
            asker,
            cohort: cohort.bits(),
            awaited: cohort.bits(),
            answer: true,
        };
        if round == Round::Save {
            self.marks.set_aside();
        }
        true
    }

    // A decision is carried out, and the board is free.
    pub fn carry_out(&mut self, round: Round, agreed: bool)
        ensures { row_of self.new ≡ row_carried round agreed (row_of self.old) }
    {
        match (round, agreed) {
            (Round::Save, true) => self.marks.keep(),
            (Round::Save, false) => self.marks.bring_back(),
            (Round::Back, true) => {
                self.marks.go_back();
                self.lost = false;
            }
            (Round::Back, false) => {}
        }
        self.role = Role::new();
    }
}
