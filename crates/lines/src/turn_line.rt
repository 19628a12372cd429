// Turn lines: the first letter says which turn it is.
ghost use Rattle.std.specs.Prelude.{◌≡◌};
ghost use Rattle.std.specs.Option.{option_map};
ghost use Rattle.lines.specs.Lines.{turn_by, turn_line};
ghost use Rattle.lines.specs.Numbers.{seen};

use crate::line::fields;
use turns::turn::Turn;

// The turn that a letter begins, by the bytes after the letter, and the bytes after its line.
fn turn_by(letter: char, bytes: &[u8]) -> Option<(Turn, &[u8])>
    ensures { option_map seen result ≡ turn_by letter bytes.now }
{
    match letter {
        'W' => fields::<2>(bytes).map(|([board, word], rest)| (Turn::Work { board, word }, rest)),
        'S' => fields::<3>(bytes).map(|([from, to, word], rest)| (
            Turn::Send { from, to, word },
            rest,
        )),
        'D' => fields::<2>(bytes).map(|([from, to], rest)| (Turn::Deliver { from, to }, rest)),
        'C' => fields::<1>(bytes).map(|([board], rest)| (Turn::Checkpoint { board }, rest)),
        'R' => fields::<1>(bytes).map(|([board], rest)| (Turn::Rollback { board }, rest)),
        'X' => fields::<1>(bytes).map(|([board], rest)| (Turn::Stop { board }, rest)),
        'U' => fields::<1>(bytes).map(|([board], rest)| (Turn::Restart { board }, rest)),
        'N' => fields::<2>(bytes).map(|([board, willing], rest)| (
            Turn::SetWilling { board, willing },
            rest,
        )),
        _ => None,
    }
}

// The turn of the line that the bytes begin with, and the bytes after the line.
pub fn turn_at(bytes: &[u8]) -> Option<(Turn, &[u8])>
    ensures { option_map seen result ≡ turn_line bytes.now }
{
    let (letter, rest) = bytes.split_first()?;
    turn_by(char::from(*letter), rest)
}
