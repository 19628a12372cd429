// What the first line of a run file says of the loom.
ghost use Rattle.std.specs.Prelude.{◌≡◌, Some, None, MatchResult};
ghost use Rattle.lines.specs.Lines.{part_of};
ghost use Rattle.lines.specs.Names.{part_name, store_name};

use std::fmt;

// where the checkpoints are kept
#[derive(Clone, Copy, PartialEq, Eq, Debug)]
pub enum StoreKind {
    // two places for each board
    Slots,
    // a log with this many places
    Journal { places: u32 },
}

// what kind of record every board of the loom has
#[derive(Clone, Copy, PartialEq, Eq, Debug)]
pub enum PartKind {
    Harness,
    Feed,
}

// a letter that names no kind of record
#[derive(Clone, Copy, PartialEq, Eq, Debug)]
pub struct UnknownPart(pub char);

#[derive(Clone, Copy, PartialEq, Eq, Debug)]
pub struct Loom {
    pub boards: u32,
    pub store: StoreKind,
    pub part: PartKind,
}

impl TryFrom<char> for PartKind {
    type Error = UnknownPart;

    ghost try_from_gives = { λ letter r. MatchResult r (λ part. part_of letter ≡ Some part) (λ e. (part_of letter ≡ None) × (e.0 ≡ letter)) };

    fn try_from(letter: char) -> Result<PartKind, UnknownPart> {
        match letter {
            'H' => Ok(PartKind::Harness),
            'F' => Ok(PartKind::Feed),
            _ => Err(UnknownPart(letter)),
        }
    }
}

impl PartKind {
    // The word for the kind of record in a text.
    pub fn name(self) -> &'static str
        ensures { result.now ≡ part_name self }
    {
        match self {
            PartKind::Harness => "harness",
            PartKind::Feed => "feed",
        }
    }
}

impl fmt::Display for PartKind {
    ghost output = { λ part. Some (part_name part) };

    fn fmt<W: fmt::Write>(&self, f: &mut fmt::Formatter<W>) -> fmt::Result {
        f.write_str(self.name())
    }
}

impl fmt::Display for StoreKind {
    ghost output = { λ store. Some (store_name store) };

    fn fmt<W: fmt::Write>(&self, f: &mut fmt::Formatter<W>) -> fmt::Result {
        match self {
            StoreKind::Slots => f.write_str("slot store"),
            StoreKind::Journal { places } => write!(f, "journal of {places} places"),
        }
    }
}
