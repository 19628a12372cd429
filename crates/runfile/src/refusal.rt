// Why a run file is refused.
ghost use Rattle.std.specs.Prelude.{◌≡◌};
ghost use Rattle.runfile.specs.Files.{number_of, line_of};

#[derive(Clone, Copy, PartialEq, Eq, Debug)]
pub enum Refusal {
    // the file has more than 32,768 bytes
    TooLong,
    // the first line is wrong, missing or not ended
    BadFirstLine,
    // the line is no turn, or is not ended
    BadTurn { line: u32 },
    // a line after 4,096 turns
    TooManyTurns { line: u32 },
}

impl Refusal {
    // (A match: two of the variants hold a line, so no cast gives the number.)
    pub fn number(self) -> u32
        ensures { result ≡ number_of self }
    {
        match self {
            Refusal::TooLong => 20,
            Refusal::BadFirstLine => 21,
            Refusal::BadTurn { .. } => 22,
            Refusal::TooManyTurns { .. } => 23,
        }
    }

    // The line that is refused; 0 for the file as a whole.
    pub fn line(self) -> u32
        ensures { result ≡ line_of self }
    {
        match self {
            Refusal::TooLong => 0,
            Refusal::BadFirstLine => 1,
            Refusal::BadTurn { line } | Refusal::TooManyTurns { line } => line,
        }
    }
}
