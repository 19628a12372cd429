// The lines of a report, each made as a whole before it is written.
ghost use Rattle.std.specs.Prelude.{◌≡◌, ◌≤◌, length};
ghost use Rattle.report.specs.Lines.{turn_line, board_line, end_line};
ghost use Rattle.report.specs.Texts.{text};

use crate::line::Line;
use crate::spell::Spelled;
use crate::state::BoardState;

pub fn turn_line(number: u32, answer: u32, kind: u32) -> Line
    ensures { text result ≡ turn_line number answer kind }
{
    let mut line = Line::new();
    line.push_decimal(number);
    line.push(" ");
    line.push_decimal(answer);
    line.push(" ");
    line.push_decimal(kind);
    line.push("\n");
    line
}

pub fn end_line(turns: u32, offset: usize) -> Line
    ensures { text result ≡ end_line turns offset }
{
    let mut line = Line::new();
    line.push("END ");
    line.push_decimal(turns);
    line.push(" ");
    line.push_decimal(offset);
    line.push("\n");
    line
}

pub fn board_line<R: Spelled>(board: u32, state: BoardState, of: R) -> Line
    ensures written { text result ≡ board_line board state (R.Spelled.spelled of) }
    ensures short { length (R.Spelled.spelled of) ≤ 30 }
{
    let mut line = Line::new();
    line.push("B ");
    line.push_decimal(board);
    line.push(" ");
    line.push_decimal(state.number());
    line.push(" ");
    line.push(of.spell().as_str());
    line.push("\n");
    line
}
