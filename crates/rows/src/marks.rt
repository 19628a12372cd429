// A board's marks: what it notes of every other board.
ghost use Rattle.std.specs.Prelude.{◌≡◌, ℕ, ◌<◌, ◌≤◌, ◌↔◌, IsSome, IfSome, cond, nat_lt, slice_set};
ghost use Rattle.rows.specs.Marked.{mark_at, marks_of};
ghost use Rattle.protocol.specs.Rows.{new_marks};
ghost use Rattle.protocol.specs.Marks.{mark_sent, mark_heard, mark_checkpoint, mark_keep, mark_drop, mark_back, need, ask_label, in_cohort};
ghost use Rattle.rows.specs.Sets.{is_in};

use crate::mark::Mark;
use crate::set::{BoardSet, MAX_BOARDS};
use records::event::{Board, Label};
use turns::round::Round;

#[derive(Clone, Copy, PartialEq, Eq, Debug)]
pub struct Marks {
    of: [Mark; MAX_BOARDS],
}

impl Marks {
    pub fn new() -> Marks
        ensures { marks_of result ≡ new_marks }
    {
        Marks {
            of: [Mark::default(); MAX_BOARDS],
        }
    }

    // What is noted of a board; of a number that is no board's, nothing.
    fn at(&self, board: Board) -> Mark
        ensures { result ≡ mark_at self.now.of board }
    {
        self.of.get(board as usize).copied().unwrap_or_default()
    }

    // Notes this of the board, and answers whether a loom can have it; of no other anything is noted.
    fn note(&mut self, board: Board, mark: Mark) -> bool
        ensures answer { result ≡ nat_lt board 19 }
        ensures after { self.new.of ≡ cond result (slice_set self.old.of board mark) self.old.of }
    {
        let board = board as usize;
        if board < MAX_BOARDS {
            self.of[board] = mark;
        }
        board < MAX_BOARDS
    }

    // A word leaves for the board under the label. No loom has a board from 19 on: the answer is false then, and
    // nothing is noted.
    pub fn sent(&mut self, to: Board, label: Label) -> bool
        ensures answer { result ≡ nat_lt to 19 }
        ensures after { marks_of self.new ≡ cond result (mark_sent (marks_of self.old) to label) (marks_of self.old) }
    {
        let mark = self.at(to).sent(label);
        self.note(to, mark)
    }

    // A word of the board is heard under the label; as with `sent`, of a board below 19.
    pub fn heard(&mut self, from: Board, label: Label) -> bool
        ensures answer { result ≡ nat_lt from 19 }
        ensures after { marks_of self.new ≡ cond result (mark_heard (marks_of self.old) from label) (marks_of self.old) }
    {
        let mark = self.at(from).heard(label);
        self.note(from, mark)
    }

    // A checkpoint is taken: heard and first are set aside.
    pub fn set_aside(&mut self)
        ensures { marks_of self.new ≡ mark_checkpoint (marks_of self.old) }
    {
        self.of = self.of.map(|mark| mark.set_aside());
    }

    // The checkpoint is kept.
    pub fn keep(&mut self)
        ensures { marks_of self.new ≡ mark_keep (marks_of self.old) }
    {
        self.of = self.of.map(|mark| mark.keep());
    }

    // The checkpoint is dropped: what was set aside is brought back.
    pub fn bring_back(&mut self)
        ensures { marks_of self.new ≡ mark_drop (marks_of self.old) }
    {
        self.of = self.of.map(|mark| mark.bring_back());
    }

    // The board goes back.
    pub fn go_back(&mut self)
        ensures { marks_of self.new ≡ mark_back (marks_of self.old) }
    {
        self.of = self.of.map(|mark| mark.go_back());
    }

    // Whether a board with these marks has to take part, when it is asked with the label.
    pub fn need(&self, round: Round, asker: Board, label: Label) -> bool
        ensures { result ≡ need round (marks_of self.now) asker label }
    {
        let mark = self.at(asker);
        match round {
            Round::Save => 0 < mark.first && mark.first <= label,
            Round::Back => label < mark.heard,
        }
    }

    // The label with which a board with these marks asks another, as it is drawn in.
    pub fn ask_label(&self, round: Round, other: Board) -> Label
        ensures { result ≡ ask_label round (marks_of self.now) other }
    {
        match round {
            Round::Save => self.at(other).heard,
            Round::Back => self.at(other).saved,
        }
    }

    // Whether a board with these marks asks the other, as it is drawn in.
    fn asks(&self, round: Round, board: Board, other: Board) -> bool
        ensures { (n : ℕ) → other < n → result ≡ in_cohort n round board (marks_of self.now) other }
    {
        match round {
            Round::Save => other != board && 0 < self.at(other).heard,
            Round::Back => other != board,
        }
    }

    // The boards that this one of so many asks, as it is drawn in: saving, those that it has heard since its last
    // checkpoint; going back, all others.
    pub fn cohort(&self, round: Round, board: Board, boards: u32) -> Option<BoardSet>
        ensures fits { IsSome result ↔ (boards ≤ 19) }
        ensures count { IfSome result (λ s. s.boards ≡ boards) }
        ensures members { IfSome result (λ s. (b : ℕ) → is_in s b ≡ in_cohort boards round board (marks_of self.now) b) }
    {
        let mut cohort = BoardSet::none(boards)?;
        for other in 0..boards {
            if self.asks(round, board, other) {
                cohort.insert(other);
            }
        }
        Some(cohort)
    }
}
