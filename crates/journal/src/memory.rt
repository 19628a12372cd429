// The journal as a store.
ghost use Rattle.std.specs.Prelude.{◌≡◌, true, length};
ghost use Rattle.std.specs.Result.{result_err};
ghost use Rattle.journal.specs.Journals.{roomy, journal_refused, prepared};

use crate::entry::{Entry, EntryKind};
use crate::log::{Kept, count_pending, kept_in, latest_of};
use records::part::Part;
use store::refusal::{MakeRefusal, StoreRefusal};
use store::traits::Store;

// what a put lowers the spare by; `put_wear` reads it here, since `Self::WEAR` gets no proof beside a type parameter
const JOURNAL_WEAR: u32 = 1;

// the most places of a journal
const MAX_PLACES: usize = 1024;

#[derive(Drop)]
pub struct Journal<'a, R: Part> {
    // lent memory, and how many of its entries are used: no `Vec`, since a store asks for no memory
    entries: &'a mut [Entry<R>],
    used: usize,
    boards: usize,
    // Every pending record has a place left for the entry that ends it. That the pointers are as they should be is no
    // ghost field: it has more than one proof, and truncated it would say less.
    ghost room: { roomy R.Part.rules.first entries.now used boards ≡ true },
}

impl<'a, R: Part> Journal<'a, R> {
    ghost use Rattle.std.specs.Prelude.{◌≡◌, ◌≢◌, ◌+◌, ◌<◌, true, length, Some, None, IfOk, IfErr, OnOk};
    ghost use Rattle.std.specs.Result.{result_err};
    ghost use Rattle.journal.specs.Held.{meaning_of, board_of, log_of, with_entry, HasRoomFor, grown, Threading, Tracing};
    ghost use Rattle.journal.specs.Logs.{as_kept, kept_of, latest_from};
    ghost use Rattle.journal.specs.Journals.{used_after, new_meaning, journal_refused, New, ended_after};
    ghost use Rattle.journal.specs.declared.entry.EntryKind.TheVariants.{First, Put};
    ghost use Rattle.store.specs.Meaning.{keep_answer};
    ghost use Rattle.store.specs.declared.refusal.StoreRefusal.TheVariants.{BadBoard};

    // A new journal in the whole of the memory: the first record stands everywhere, and none is pending.
    pub fn new(entries: &'a mut [Entry<R>], boards: usize) -> Result<Journal<'a, R>, MakeRefusal>
        ensures answer { result_err result ≡ journal_refused (length entries.old) boards }
        ensures places { IfOk result (λ s. New R.Part.rules.first entries.old boards s.entries.now s.used s.boards) }
        ensures fresh { IfOk result (λ s. meaning_of s ≡ new_meaning R.Part.rules.first (length entries.old) boards) }
        ensures traced { IfOk result Tracing }
    {
        prepare(entries, boards)?;
        Ok(Journal {
            entries,
            used: boards,
            boards,
        })
    }

    // The entries that are used.
    fn log(&self) -> &[Entry<R>]
        ensures { result.now ≡ log_of self.now }
    {
        &self.entries[..self.used]
    }

    // What is kept of the board.
    #[tactic(auto, using(crate::proofs::Asked::board_at, crate::proofs::Asked::no_board))]
    fn kept(&self, board: usize) -> Result<Kept<R>, StoreRefusal>
        ensures within { OnOk result (board < self.now.boards) }
        ensures by_log { IfOk result (λ k. as_kept k ≡ kept_of R.Part.rules.first (log_of self.now) board) }
        ensures kept { IfOk result (λ k. board_of self.now board ≡ Some (as_kept k)) }
        ensures none { IfErr result (λ why. (why ≡ BadBoard) × (board_of self.now board ≡ None)) }
    {
        if board < self.boards {
            Ok(kept_in(self.log(), board))
        } else {
            Err(StoreRefusal::BadBoard)
        }
    }

    // Where a new entry of the board points back to.
    fn back(&self, board: usize) -> usize
        ensures { result ≡ latest_from board (length (log_of self.now)) 0 (log_of self.now) }
    {
        latest_of(self.log(), board).unwrap_or(self.used)
    }

    // Writes an entry into the first place that is not used. What is said of both journals, the old and the new, here and
    // in the calls, no type could say of one.
    fn append(&mut self, board: usize, kind: EntryKind, state: R)
        requires kind { kind ≢ First }
        requires within { board < self.old.boards }
        requires free { self.old.used < length self.old.entries.now }
        requires room { HasRoomFor self.old board kind state }
        ensures memory { self.new.entries.now ≡ with_entry self.old board kind state }
        ensures numbers { (self.new.used ≡ self.old.used + 1) × (self.new.boards ≡ self.old.boards) }
        ensures stays { self.new.entries.ghost_name ≡ self.old.entries.ghost_name }
        ensures traced { Threading self.old → Tracing self.new }
    {
        self.entries[self.used] = Entry {
            board,
            kind,
            state,
            back: self.back(board),
        };
        self.used += 1;
    }

    // Ends the board's pending record by an entry of this kind, which holds the first record.
    #[tactic(auto, using(crate::proofs::Pointers::traced))]
    fn end(&mut self, board: usize, kind: EntryKind) -> Result<(), StoreRefusal>
        requires { (kind ≢ First) × (kind ≢ Put) }
        ensures answer { result ≡ keep_answer (meaning_of self.old) board }
        ensures after { meaning_of self.new ≡ ended_after kind (meaning_of self.old) board }
        ensures memory { self.new.entries.now ≡ grown result self.old board kind R.Part.rules.first }
        ensures numbers { (self.new.used ≡ used_after result self.old.used) × (self.new.boards ≡ self.old.boards) }
        ensures stays { self.new.entries.ghost_name ≡ self.old.entries.ghost_name }
        ensures traced { Threading self.old → Tracing self.new }
    {
        if self.kept(board)?.pending.is_none() {
            return Err(StoreRefusal::WrongPending);
        }
        self.append(board, kind, R::first());
        Ok(())
    }
}

// Makes the memory's first entries those of a new journal, or refuses, and then leaves it as it was.
pub fn prepare<R: Part>(entries: &mut [Entry<R>], boards: usize) -> Result<(), MakeRefusal>
    ensures answer { result_err result ≡ journal_refused (length entries.old) boards }
    ensures memory { entries.new ≡ prepared R.Part.rules.first entries.old boards (result_err result) }
{
    MakeRefusal::check(boards, entries.len() < boards || entries.len() > MAX_PLACES)?;
    for (board, entry) in entries[..boards].iter_mut().enumerate() {
        *entry = Entry {
            board,
            kind: EntryKind::First,
            state: R::first(),
            back: board,
        };
    }
    Ok(())
}

impl<'a, R: Part> Store for Journal<'a, R> {
    ghost use Rattle.std.specs.Prelude.{◌≡◌, false, reverse, IfOk};
    ghost use Rattle.std.proofs.Common.{lit≤};
    ghost use Rattle.journal.specs.Back.{latest_kept};
    ghost use Rattle.journal.specs.Held.{meaning_of, log_of, grown, Threading, Tracing};
    ghost use Rattle.journal.specs.Journals.{used_after};
    ghost use Rattle.journal.specs.declared.entry.EntryKind.TheVariants.{Put, Keep, Discard};
    ghost use Rattle.store.specs.Meaning.{standing_of, put_answer, put_after, keep_answer, keep_after, discard_after};

    type Record = R;

    const WEAR: u32 = JOURNAL_WEAR;

    ghost meaning = { meaning_of };

    ghost wear = { 1 };

    ghost slight = { lit≤ tt };

    fn put_wear() -> u32 {
        JOURNAL_WEAR
    }

    fn boards(&self) -> usize {
        self.boards
    }

    fn spare(&self) -> usize {
        let pending = count_pending(self.log(), self.boards);
        (self.entries.len() - self.used - pending) / 2
    }

    #[tactic(auto, using(crate::proofs::Back::stands_latest))]
    fn standing(&self, board: usize) -> Result<R, StoreRefusal>
        ensures value { result ≡ standing_of (meaning_of self.now) board }
        ensures latest { IfOk result (λ x. x ≡ latest_kept R.Part.rules.first board false (reverse (log_of self.now))) }
    {
        Ok(self.kept(board)?.standing)
    }

    fn is_pending(&self, board: usize) -> Result<bool, StoreRefusal> {
        Ok(self.kept(board)?.pending.is_some())
    }

    #[tactic(auto, using(crate::proofs::Pointers::traced))]
    fn put(&mut self, board: usize, state: R) -> Result<(), StoreRefusal>
        ensures answer { result ≡ put_answer (meaning_of self.old) board }
        ensures after { meaning_of self.new ≡ put_after 1 (meaning_of self.old) board state }
        ensures memory { self.new.entries.now ≡ grown result self.old board Put state }
        ensures numbers { (self.new.used ≡ used_after result self.old.used) × (self.new.boards ≡ self.old.boards) }
        ensures stays { self.new.entries.ghost_name ≡ self.old.entries.ghost_name }
        ensures traced { Threading self.old → Tracing self.new }
    {
        if self.kept(board)?.pending.is_some() {
            return Err(StoreRefusal::WrongPending);
        }
        if self.spare() == 0 {
            return Err(StoreRefusal::NoSpare);
        }
        self.append(board, EntryKind::Put, state);
        Ok(())
    }

    fn keep(&mut self, board: usize) -> Result<(), StoreRefusal>
        ensures answer { result ≡ keep_answer (meaning_of self.old) board }
        ensures after { meaning_of self.new ≡ keep_after (meaning_of self.old) board }
        ensures memory { self.new.entries.now ≡ grown result self.old board Keep R.Part.rules.first }
        ensures numbers { (self.new.used ≡ used_after result self.old.used) × (self.new.boards ≡ self.old.boards) }
        ensures stays { self.new.entries.ghost_name ≡ self.old.entries.ghost_name }
        ensures traced { Threading self.old → Tracing self.new }
    {
        self.end(board, EntryKind::Keep)
    }

    fn discard(&mut self, board: usize) -> Result<(), StoreRefusal>
        ensures answer { result ≡ keep_answer (meaning_of self.old) board }
        ensures after { meaning_of self.new ≡ discard_after (meaning_of self.old) board }
        ensures memory { self.new.entries.now ≡ grown result self.old board Discard R.Part.rules.first }
        ensures numbers { (self.new.used ≡ used_after result self.old.used) × (self.new.boards ≡ self.old.boards) }
        ensures stays { self.new.entries.ghost_name ≡ self.old.entries.ghost_name }
        ensures traced { Threading self.old → Tracing self.new }
    {
        self.end(board, EntryKind::Discard)
    }
}
