// A run file is read from its front: the first line, then one turn after the other. The turns
// cannot be read before the first line, since only `first_line` makes their reader.
ghost use Rattle.std.specs.Prelude.{◌≡◌};
ghost use Rattle.runfile.specs.Files.{first_line, next_turn, moved};
ghost use Rattle.runfile.specs.Readers.{numbered};

use crate::refusal::Refusal;
use lines::loom::Loom;
use lines::loom_line::loom_at;
use lines::turn_line::turn_at;
use std::marker::Model;
use turns::turn::Turn;

// the last line that may hold a turn
const LAST_TURN_LINE: u32 = 4097;

// a turn, with the number of its line in the file
#[derive(Clone, Copy, PartialEq, Eq, Debug)]
pub struct TurnLine {
    pub line: u32,
    pub turn: Turn,
}

// the bytes of a run file of which nothing is read yet
#[derive(Drop)]
pub struct FileReader<'a> {
    bytes: &'a [u8],
}

// a cursor behind the lines that are read: the bytes to come, and the number of the next line
#[derive(Drop)]
pub struct TurnReader<'a> {
    rest: &'a [u8],
    line: u32,
}

// In contracts a reader of a file is the bytes to come,
impl<'a> Model for FileReader<'a> {
    ghost use Rattle.std.specs.Prelude.{ℕ, List};

    ghost Value = { List ℕ };

    ghost view = { λ reader. reader.bytes.now };
}

// and a reader of turns is the place where it stands.
impl<'a> Model for TurnReader<'a> {
    ghost use Rattle.runfile.specs.Files.{Place};

    ghost Value = { Place };

    ghost view = { λ reader. record { rest = reader.rest.now; line = reader.line } };
}

impl<'a> FileReader<'a> {
    pub fn new(bytes: &'a [u8]) -> FileReader<'a>
        ensures { result ≡ bytes.now }
    {
        FileReader { bytes }
    }

    // The loom, and the reader of the turns.
    pub fn first_line(self) -> Result<(Loom, TurnReader<'a>), Refusal>
        ensures { result ≡ first_line self.entry }
    {
        let (loom, rest) = loom_at(self.bytes).ok_or(Refusal::BadFirstLine)?;
        Ok((loom, TurnReader { rest, line: 2 }))
    }
}

impl TurnReader<'_> {
    // The next turn with its line; none at the file's end. A refusal leaves the reader as it was.
    pub fn next_turn(&mut self) -> Result<Option<TurnLine>, Refusal>
        ensures answer { result ≡ numbered self.old.line (next_turn self.old) }
        ensures after { self.new ≡ moved self.old (next_turn self.old) }
    {
        let line = self.line;
        if self.rest.is_empty() {
            return Ok(None);
        }
        if line > LAST_TURN_LINE {
            return Err(Refusal::TooManyTurns { line });
        }
        let (turn, rest) = turn_at(self.rest).ok_or(Refusal::BadTurn { line })?;
        self.rest = rest;
        self.line = line + 1;
        Ok(Some(TurnLine { line, turn }))
    }
}

#[cfg(test)]
mod tests {
    use super::*;
    use std::test::Fail;

    #[test]
    fn hands_out_turns_with_their_lines(rt: HostRuntime) -> Result<(), Fail> {
        let (loom, mut turns) = FileReader::new(
            b"LOOM 3 J 40 F\nW 0 5\nS 2 1 9\nw 0 5\n",
        ).first_line()?;
        assert_eq!(rt; loom.boards, 3);
        let work = TurnLine {
            line: 2,
            turn: Turn::Work { board: 0, word: 5 },
        };
        assert_eq!(rt; turns.next_turn()?, Some(work));
        let send = TurnLine {
            line: 3,
            turn: Turn::Send {
                from: 2,
                to: 1,
                word: 9,
            },
        };
        assert_eq!(rt; turns.next_turn()?, Some(send));
        assert_eq!(rt; turns.next_turn(), Err(Refusal::BadTurn { line: 4 }));
        assert_eq!(rt;
            turns.next_turn(),
            Err(Refusal::BadTurn { line: 4 }),
            "a refusal leaves the reader"
        );
        Ok(())
    }

    #[test]
    fn ends_after_the_last_line(rt: HostRuntime) -> Result<(), Fail> {
        let (_, mut turns) = FileReader::new(b"LOOM 1 S 0 H\nC 0\n").first_line()?;
        let save = TurnLine {
            line: 2,
            turn: Turn::Checkpoint { board: 0 },
        };
        assert_eq!(rt; turns.next_turn()?, Some(save));
        assert_eq!(rt; turns.next_turn()?, None);
        assert_eq!(rt; turns.next_turn()?, None);
        Ok(())
    }
}
