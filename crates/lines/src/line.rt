// The pieces of a line: single bytes, numbers after a space, the line's end. Each function takes
// the bytes from where its piece should stand, and gives the piece and the bytes after it. (No
// cursor moves, so nothing is half read where a piece is wanting.)
ghost use Rattle.std.specs.Prelude.{◌≡◌};
ghost use Rattle.std.specs.Option.{option_map};
ghost use Rattle.lines.specs.Lines.{byte, field, fields};
ghost use Rattle.lines.specs.Numbers.{seen};

use crate::number::number_at;

// The bytes after the one that is wanted.
pub fn after_byte(bytes: &[u8], wanted: u8) -> Option<&[u8]>
    ensures { option_map (λ x. x.now) result ≡ byte wanted bytes.now }
{
    let (first, rest) = bytes.split_first()?;
    (*first == wanted).then_some(rest)
}

// The bytes after the line's end.
fn after_end(bytes: &[u8]) -> Option<&[u8]>
    ensures { option_map (λ x. x.now) result ≡ byte 10 bytes.now }
{
    after_byte(bytes, b'\n')
}

// A space and a number.
pub fn field_at(bytes: &[u8]) -> Option<(u32, &[u8])>
    ensures { option_map seen result ≡ field bytes.now }
{
    number_at(after_byte(bytes, b' ')?)
}

// N numbers, each after a space, and the line's end.
pub fn fields<const N: usize>(bytes: &[u8]) -> Option<([u32; N], &[u8])>
    ensures { option_map seen result ≡ fields N bytes.now }
{
    let mut numbers = [0; N];
    let mut rest = bytes;
    for number in &mut numbers {
        (*number, rest) = field_at(rest)?;
    }
    let rest = after_end(rest)?;
    Some((numbers, rest))
}
