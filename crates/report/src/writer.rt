// The writer of a report is one of three states, each moved into the next: turn lines, board lines,
// the whole report. A state holds plain numbers; the memory is lent at each call.
ghost use Rattle.std.specs.Prelude.{◌≡◌, ℕ, ◌+◌, ◌≤◌, List, [], length};
ghost use Rattle.report.specs.Lines.{turn_line, board_line, end_line};
ghost use Rattle.report.specs.Reports.{Answer, TurnsWritten, BoardsWritten, answered, told};
ghost use Rattle.report.specs.Reports.{TurnFollows, BoardFollows, EndFollows, TurnFits, BoardFits, EndFits};
ghost use Rattle.report.specs.Writers.{begun, turn_tried, boards_begun, board_tried, end_tried};
ghost use Rattle.report.specs.Writers.{after, handed_back, refusal_number};
ghost use Rattle.report.specs.Texts.{text};

use crate::line::Line;
use crate::lines::{board_line, end_line, turn_line};
use crate::place::put_bytes;
use crate::spell::Spelled;
use crate::state::BoardState;

// the most turn lines and board lines of a report
const MAX_TURNS: u32 = 4096;

const MAX_BOARDS: u32 = 19;

#[derive(Clone, Copy, PartialEq, Eq, Debug)]
pub enum WriteRefusal {
    // turn line 4,097 or board line 20
    TooManyLines = 27,
    // the line does not fit the memory
    NoRoom = 26,
}

impl WriteRefusal {
    pub fn number(self) -> u32
        ensures { result ≡ refusal_number self }
    {
        self as u32
    }
}

// a line that was not written: why, and the writer as it was
#[derive(Drop)]
pub struct NotWritten<W> {
    pub refusal: WriteRefusal,
    pub writer: W,
}

impl<W: Drop> From<NotWritten<W>> for WriteRefusal {
    ghost from_gives = { λ e why. why ≡ e.refusal };

    fn from(e: NotWritten<W>) -> WriteRefusal {
        e.refusal
    }
}

// What was made, or the refusal and the writer as it was.
fn hand_back<V, W: Drop>(made: Result<V, WriteRefusal>, writer: W) -> Result<V, NotWritten<W>>
    ensures { result ≡ handed_back writer made }
{
    made.map_err(|refusal| NotWritten { refusal, writer })
}

// turn lines are written: where the next line goes, and how many there are
#[derive(Drop)]
pub struct TurnLines {
    at: usize,
    turns: u32,
}

// board lines are written: the same, how many board lines there are and where they begin
#[derive(Drop)]
pub struct BoardLines {
    at: usize,
    turns: u32,
    boards: u32,
    offset: usize,
}

// the report is whole
#[derive(Drop)]
pub struct Report {
    length: usize,
}

impl TurnLines {
    // A new report, at the front of the memory.
    #[tactic(auto, using(crate::proofs::Reports::begun_written))]
    pub fn begin() -> TurnLines
        ensures value { result ≡ begun }
        ensures follows { (out : List ℕ) → TurnsWritten result out [] }
    {
        TurnLines { at: 0, turns: 0 }
    }

    // Writes the next turn's line. Takes the writer by reference, so that the caller can hand it back.
    fn add_turn(&self, out: &mut [u8], answer: u32, kind: u32) -> Result<TurnLines, WriteRefusal>
        ensures answer { handed_back self.now result ≡ turn_tried self.now out.old (turn_line (self.now.turns + 1) answer kind) }
        ensures memory { out.new ≡ after result self.now.at (turn_line (self.now.turns + 1) answer kind) out.old }
    {
        if self.turns >= MAX_TURNS {
            return Err(WriteRefusal::TooManyLines);
        }
        let turns = self.turns + 1;
        let line = turn_line(turns, answer, kind);
        let at = put_bytes(out, self.at, line.as_slice())?;
        Ok(TurnLines { at, turns })
    }

    // The next turn's line; the writer numbers them from 1. With it, what is written goes on being
    // the front of a report. Answer and kind are the format's numbers and no enums: the writer takes any.
    pub fn turn(
        self,
        out: &mut [u8],
        answer: u32,
        kind: u32,
    ) -> Result<TurnLines, NotWritten<TurnLines>>
        ensures answer { result ≡ turn_tried self out.old (turn_line (self.turns + 1) answer kind) }
        ensures memory { out.new ≡ after result self.at (turn_line (self.turns + 1) answer kind) out.old }
        ensures follows { TurnFollows self out.old (answered answer kind) result out.new }
        ensures fits { TurnFits self out.old (answered answer kind) result }
    {
        hand_back(self.add_turn(out, answer, kind), self)
    }

    // No turn line follows.
    #[tactic(auto, using(crate::proofs::Reports::boards_follow))]
    pub fn boards(self) -> BoardLines
        ensures value { result ≡ boards_begun self }
        ensures follows { (out : List ℕ) (ts : List Answer) → TurnsWritten self out ts → BoardsWritten result out ts [] }
    {
        BoardLines {
            at: self.at,
            turns: self.turns,
            boards: 0,
            offset: self.at,
        }
    }
}

impl BoardLines {
    // Writes a board's line, as `add_turn` does a turn's.
    fn add_board(&self, out: &mut [u8], line: &Line) -> Result<BoardLines, WriteRefusal>
        ensures answer { handed_back self.now result ≡ board_tried self.now out.old (text line.now) }
        ensures memory { out.new ≡ after result self.now.at (text line.now) out.old }
    {
        if self.boards >= MAX_BOARDS {
            return Err(WriteRefusal::TooManyLines);
        }
        let at = put_bytes(out, self.at, line.as_slice())?;
        Ok(BoardLines {
            at,
            boards: self.boards + 1,
            ..*self
        })
    }

    // The line of a board.
    pub fn board<R: Spelled>(
        self,
        out: &mut [u8],
        board: u32,
        state: BoardState,
        of: R,
    ) -> Result<BoardLines, NotWritten<BoardLines>>
        ensures answer { result ≡ board_tried self out.old (board_line board state (R.Spelled.spelled of)) }
        ensures memory { out.new ≡ after result self.at (board_line board state (R.Spelled.spelled of)) out.old }
        ensures follows { BoardFollows self out.old (told board state (R.Spelled.spelled of)) result out.new }
        ensures fits { BoardFits self out.old (told board state (R.Spelled.spelled of)) result }
        ensures short { length (R.Spelled.spelled of) ≤ 30 }
    {
        let line = board_line(board, state, of);
        hand_back(self.add_board(out, &line), self)
    }

    // The last line, which points back to the first board line.
    pub fn end(self, out: &mut [u8]) -> Result<Report, NotWritten<BoardLines>>
        ensures answer { result ≡ end_tried self out.old (end_line self.turns self.offset) }
        ensures memory { out.new ≡ after result self.at (end_line self.turns self.offset) out.old }
        ensures follows { EndFollows self out.old result out.new }
        ensures fits { EndFits self out.old result }
    {
        let line = end_line(self.turns, self.offset);
        let put = put_bytes(out, self.at, line.as_slice());
        hand_back(put.map(|length| Report { length }), self)
    }
}

impl Report {
    // How many bytes the report has.
    pub fn length(&self) -> usize
        ensures { result ≡ self.now.length }
    {
        self.length
    }
}
