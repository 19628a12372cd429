// A store that keeps two places a board in memory handed to it: the standing record, and the pending one or none.
ghost use Rattle.std.specs.Prelude.{◌≡◌, ◌+◌, ◌*◌, ◌<◌, true, false, length, take, IfOk, IfErr, None};
ghost use Rattle.std.specs.List.{slice_get};
ghost use Rattle.std.specs.Result.{result_err};
ghost use Rattle.std.proofs.Common.{lit≤};
ghost use Rattle.store.specs.Meaning.{fresh_meaning, standing_of, pending_of, put_answer, put_after, keep_answer, keep_after, discard_after};
ghost use Rattle.store.specs.Slots.{filled, pairs, slot_meaning, fresh_slots, slots_refused, prepared, put_slots, keep_slots, discard_slots};
ghost use Rattle.store.specs.declared.refusal.StoreRefusal.TheVariants.{BadBoard, WrongPending};

use crate::refusal::{MakeRefusal, StoreRefusal};
use crate::traits::Store;
use records::part::Part;

// one place: whether it is taken, and its record; no `Option`, since an empty place holds the first record
#[derive(Clone, Copy)]
pub struct Slot<R> {
    pub taken: bool,
    pub state: R,
}

impl<R: Part> Slot<R> {
    // Empties the place and gives the record that it held, or refuses where it is empty.
    fn take(&mut self) -> Result<R, StoreRefusal>
        ensures taken { IfOk result (λ state. (self.old ≡ filled true state) × (self.new ≡ filled false R.Part.rules.first)) }
        ensures free { IfErr result (λ why. (why ≡ WrongPending) × (self.old.taken ≡ false) × (self.new ≡ self.old)) }
    {
        if !self.taken {
            return Err(StoreRefusal::WrongPending);
        }
        let state = self.state;
        *self = Slot {
            taken: false,
            state: R::first(),
        };
        Ok(state)
    }

    // Empties the place, or refuses where it is empty.
    fn discard(&mut self) -> Result<(), StoreRefusal>
        ensures emptied { IfOk result (λ _. (self.old.taken ≡ true) × (self.new ≡ filled false R.Part.rules.first)) }
        ensures free { IfErr result (λ why. (why ≡ WrongPending) × (self.old.taken ≡ false) × (self.new ≡ self.old)) }
    {
        self.take()?;
        Ok(())
    }
}

// The calls are functions of the slice, to which the store hands its own on: a rule of the project, by which what each
// place holds is said of plain memory.

// The place of the board's standing record; that of its pending one is right behind it.
fn place_of<R: Part>(slots: &[Slot<R>], board: usize) -> Result<usize, StoreRefusal>
    ensures place { IfOk result (λ place. (place ≡ 2 * board) × (place + 1 < length slots.now)) }
    ensures none { IfErr result (λ why. (why ≡ BadBoard) × (slice_get (pairs slots.now) board ≡ None)) }
{
    if board < slots.len() / 2 {
        Ok(2 * board)
    } else {
        Err(StoreRefusal::BadBoard)
    }
}

fn standing_in<R: Part>(slots: &[Slot<R>], board: usize) -> Result<R, StoreRefusal>
    ensures { result ≡ standing_of (slot_meaning slots.now) board }
{
    let place = place_of(slots, board)?;
    Ok(slots[place].state)
}

fn pending_in<R: Part>(slots: &[Slot<R>], board: usize) -> Result<bool, StoreRefusal>
    ensures { result ≡ pending_of (slot_meaning slots.now) board }
{
    let place = place_of(slots, board)?;
    Ok(slots[place + 1].taken)
}

fn put_in<R: Part>(slots: &mut [Slot<R>], board: usize, state: R) -> Result<(), StoreRefusal>
    ensures answer { result ≡ put_answer (slot_meaning slots.old) board }
    ensures after { slot_meaning slots.new ≡ put_after 0 (slot_meaning slots.old) board state }
    ensures memory { slots.new ≡ put_slots slots.old board state }
{
    let place = place_of(slots, board)?;
    if slots[place + 1].taken {
        return Err(StoreRefusal::WrongPending);
    }
    slots[place + 1] = Slot { taken: true, state };
    Ok(())
}

fn keep_in<R: Part>(slots: &mut [Slot<R>], board: usize) -> Result<(), StoreRefusal>
    ensures answer { result ≡ keep_answer (slot_meaning slots.old) board }
    ensures after { slot_meaning slots.new ≡ keep_after (slot_meaning slots.old) board }
    ensures memory { slots.new ≡ keep_slots R.Part.rules.first slots.old board }
{
    let place = place_of(slots, board)?;
    let state = slots[place + 1].take()?;
    slots[place] = Slot { taken: true, state };
    Ok(())
}

fn discard_in<R: Part>(slots: &mut [Slot<R>], board: usize) -> Result<(), StoreRefusal>
    ensures answer { result ≡ keep_answer (slot_meaning slots.old) board }
    ensures after { slot_meaning slots.new ≡ discard_after (slot_meaning slots.old) board }
    ensures memory { slots.new ≡ discard_slots R.Part.rules.first slots.old board }
{
    let place = place_of(slots, board)?;
    slots[place + 1].discard()?;
    Ok(())
}

#[derive(Drop)]
pub struct SlotStore<'a, R: Part> {
    slots: &'a mut [Slot<R>],
}

// Makes the memory's first places those of a new store, or refuses, and then leaves it as it was.
pub fn prepare<R: Part>(slots: &mut [Slot<R>], boards: usize) -> Result<(), MakeRefusal>
    ensures answer { result_err result ≡ slots_refused (length slots.old) boards }
    ensures memory { slots.new ≡ prepared R.Part.rules.first slots.old boards (result_err result) }
{
    MakeRefusal::check(boards, slots.len() / 2 < boards)?;
    let places = &mut slots[..2 * boards];
    for board in 0..boards {
        places[2 * board] = Slot {
            taken: true,
            state: R::first(),
        };
        places[2 * board + 1] = Slot {
            taken: false,
            state: R::first(),
        };
    }
    Ok(())
}

impl<'a, R: Part> SlotStore<'a, R> {
    // Takes hold of the first two places a board, whatever they hold. What lies past them is not
    // the store's, and no call of it can reach it.
    pub fn hold(slots: &'a mut [Slot<R>], boards: usize) -> Result<SlotStore<'a, R>, MakeRefusal>
        ensures answer { result_err result ≡ slots_refused (length slots.old) boards }
        ensures made { IfOk result (λ s. s.slots.now ≡ take (2 * boards) slots.old) }
    {
        MakeRefusal::check(boards, slots.len() / 2 < boards)?;
        Ok(SlotStore {
            slots: &mut slots[..2 * boards],
        })
    }

    // A new store: the first record stands everywhere, and none is pending.
    pub fn new(slots: &'a mut [Slot<R>], boards: usize) -> Result<SlotStore<'a, R>, MakeRefusal>
        ensures answer { result_err result ≡ slots_refused (length slots.old) boards }
        ensures places { IfOk result (λ s. s.slots.now ≡ fresh_slots R.Part.rules.first boards) }
        ensures fresh { IfOk result (λ s. slot_meaning s.slots.now ≡ fresh_meaning R.Part.rules.first 1 boards) }
    {
        prepare(slots, boards)?;
        SlotStore::hold(slots, boards)
    }
}

// what a put lowers the spare by; `put_wear` reads it here, since `Self::WEAR` gets no proof beside a type parameter
const SLOT_WEAR: u32 = 0;

const SLOT_SPARE: usize = 1;

impl<'a, R: Part> Store for SlotStore<'a, R> {
    type Record = R;

    const WEAR: u32 = SLOT_WEAR;

    ghost meaning = { λ s. slot_meaning s.slots.now };

    ghost wear = { 0 };

    ghost slight = { lit≤ tt };

    fn put_wear() -> u32 {
        SLOT_WEAR
    }

    fn boards(&self) -> usize {
        self.slots.len() / 2
    }

    fn spare(&self) -> usize {
        SLOT_SPARE
    }

    fn standing(&self, board: usize) -> Result<R, StoreRefusal> {
        standing_in(self.slots, board)
    }

    fn is_pending(&self, board: usize) -> Result<bool, StoreRefusal> {
        pending_in(self.slots, board)
    }

    fn put(&mut self, board: usize, state: R) -> Result<(), StoreRefusal>
        ensures answer { result ≡ put_answer (slot_meaning self.old.slots.now) board }
        ensures after { slot_meaning self.new.slots.now ≡ put_after 0 (slot_meaning self.old.slots.now) board state }
        ensures memory { self.new.slots.now ≡ put_slots self.old.slots.now board state }
        ensures stays { self.new.slots.ghost_name ≡ self.old.slots.ghost_name }
    {
        put_in(self.slots, board, state)
    }

    fn keep(&mut self, board: usize) -> Result<(), StoreRefusal>
        ensures answer { result ≡ keep_answer (slot_meaning self.old.slots.now) board }
        ensures after { slot_meaning self.new.slots.now ≡ keep_after (slot_meaning self.old.slots.now) board }
        ensures memory { self.new.slots.now ≡ keep_slots R.Part.rules.first self.old.slots.now board }
        ensures stays { self.new.slots.ghost_name ≡ self.old.slots.ghost_name }
    {
        keep_in(self.slots, board)
    }

    fn discard(&mut self, board: usize) -> Result<(), StoreRefusal>
        ensures answer { result ≡ keep_answer (slot_meaning self.old.slots.now) board }
        ensures after { slot_meaning self.new.slots.now ≡ discard_after (slot_meaning self.old.slots.now) board }
        ensures memory { self.new.slots.now ≡ discard_slots R.Part.rules.first self.old.slots.now board }
        ensures stays { self.new.slots.ghost_name ≡ self.old.slots.ghost_name }
    {
        discard_in(self.slots, board)
    }
}
