// Questions to a log of entries.
ghost use Rattle.std.specs.Prelude.{◌≡◌, is_some, None, MatchOption};
ghost use Rattle.std.specs.List.{count_by, range_with_len};
ghost use Rattle.journal.specs.Logs.{as_kept, told, kept_of, NoneOf, LatestAt};

use crate::entry::{Entry, EntryKind};
use records::part::Part;

// what is kept of a board: the standing record, and the pending one or none
#[derive(Clone, Copy)]
pub struct Kept<R> {
    pub standing: R,
    pub pending: Option<R>,
}

impl<R: Part> Kept<R> {
    // With none pending.
    fn settled(standing: R) -> Kept<R>
        ensures { result ≡ record { standing = standing; pending = None } }
    {
        Kept {
            standing,
            pending: None,
        }
    }

    // What is kept once an entry has told of its board.
    fn told(self, entry: Entry<R>, board: usize) -> Kept<R>
        ensures { as_kept result ≡ told board (as_kept self) entry }
    {
        if entry.board != board {
            return self;
        }
        match entry.kind {
            EntryKind::First => Kept::settled(entry.state),
            EntryKind::Put => Kept {
                pending: Some(entry.state),
                ..self
            },
            EntryKind::Keep => Kept::settled(self.pending.unwrap_or(self.standing)),
            EntryKind::Discard => Kept::settled(self.standing),
        }
    }
}

// What a log keeps of a board.
pub fn kept_in<R: Part>(log: &[Entry<R>], board: usize) -> Kept<R>
    ensures { as_kept result ≡ kept_of R.Part.rules.first log.now board }
{
    let mut kept = Kept::settled(R::first());
    for entry in log {
        kept = kept.told(*entry, board);
    }
    kept
}

// How many of the boards have a record pending.
pub fn count_pending<R: Part>(log: &[Entry<R>], boards: usize) -> usize
    ensures { result ≡ count_by (λ board. is_some (kept_of R.Part.rules.first log.now board).pending) (range_with_len 0 boards) }
{
    (0..boards)
        .filter(|board| kept_in(log, *board).pending.is_some())
        .count()
}

// The place of the board's latest entry.
pub fn latest_of<R: Part>(log: &[Entry<R>], board: usize) -> Option<usize>
    ensures { MatchOption result (NoneOf board log.now) (LatestAt board log.now) }
{
    log.iter().rposition(|entry| entry.board == board)
}
