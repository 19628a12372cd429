// The first line: LOOM, the number of boards, the store with its places, the kind of record.
ghost use Rattle.std.specs.Prelude.{◌≡◌, codes};
ghost use Rattle.std.specs.Option.{option_map};
ghost use Rattle.lines.specs.Lines.{text, letter_field, store_of, loom_of, loom_line};
ghost use Rattle.lines.specs.Numbers.{seen};

use crate::line::{after_byte, field_at};
use crate::loom::{Loom, PartKind, StoreKind};

const MAX_BOARDS: u32 = 19;

const MAX_PLACES: u32 = 1024;

// The bytes after the word that begins the line. (With this call inside `loom_at` five of its
// returns stay unproved.)
fn after_word(bytes: &[u8]) -> Option<&[u8]>
    ensures { option_map (λ x. x.now) result ≡ text (codes "LOOM") bytes.now }
{
    bytes.strip_prefix(b"LOOM")
}

// A space and a letter.
fn letter_at(bytes: &[u8]) -> Option<(char, &[u8])>
    ensures { option_map seen result ≡ letter_field bytes.now }
{
    let (letter, rest) = after_byte(bytes, b' ')?.split_first()?;
    Some((char::from(*letter), rest))
}

// (No TryFrom, since the letter alone does not decide which store it is.)
fn store_of(boards: u32, letter: char, places: u32) -> Option<StoreKind>
    ensures { result ≡ store_of boards letter places }
{
    match letter {
        'S' if places == 0 => Some(StoreKind::Slots),
        'J' if (boards..=MAX_PLACES).contains(&places) => Some(StoreKind::Journal { places }),
        _ => None,
    }
}

fn loom_of(boards: u32, store: char, places: u32, part: char) -> Option<Loom>
    ensures { result ≡ loom_of boards store places part }
{
    if !(1..=MAX_BOARDS).contains(&boards) {
        return None;
    }
    Some(Loom {
        boards,
        store: store_of(boards, store, places)?,
        part: PartKind::try_from(part).ok()?,
    })
}

// The loom of the line that the bytes begin with, and the bytes after the line.
pub fn loom_at(bytes: &[u8]) -> Option<(Loom, &[u8])>
    ensures { option_map seen result ≡ loom_line bytes.now }
{
    let rest = after_word(bytes)?;
    let (boards, rest) = field_at(rest)?;
    let (store, rest) = letter_at(rest)?;
    let (places, rest) = field_at(rest)?;
    let (part, rest) = letter_at(rest)?;
    let rest = after_byte(rest, b'\n')?;
    Some((loom_of(boards, store, places, part)?, rest))
}
