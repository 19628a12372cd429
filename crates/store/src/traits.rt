// What a store is: a standing record for each board, a pending one or none, and a spare, the number
// of puts that it is still good for. Every implementation shows the same calls of that meaning.
ghost use Rattle.std.specs.Prelude.{◌≡◌, ℕ, ◌≤◌, length};
ghost use Rattle.store.specs.Meaning.{Meaning, standing_of, pending_of, put_answer, put_after, keep_answer, keep_after, discard_after};

use crate::refusal::StoreRefusal;
use records::part::Part;

pub trait Store {
    // the kind of record that it keeps
    type Record: Part;

    // by how much a put lowers the spare: 0 or 1
    const WEAR: u32;

    // what the store means
    ghost meaning: { Self → Meaning Self.Record };

    // The same number, as clauses cite it. A `ghost WEAR` would be the constant itself, but for a type with a lifetime
    // the constant then gets no proof.
    ghost wear: { ℕ };

    ghost slight: { wear ≤ 1 };

    // The wear, as code under a bound reads it.
    fn put_wear() -> u32
        ensures { result ≡ wear };

    fn boards(&self) -> usize
        ensures { result ≡ length (meaning self.now).boards };

    fn spare(&self) -> usize
        ensures { result ≡ (meaning self.now).spare };

    fn standing(&self, board: usize) -> Result<Self::Record, StoreRefusal>
        ensures value { result ≡ standing_of (meaning self.now) board };

    fn is_pending(&self, board: usize) -> Result<bool, StoreRefusal>
        ensures { result ≡ pending_of (meaning self.now) board };

    // Gives the board a pending record.
    fn put(&mut self, board: usize, state: Self::Record) -> Result<(), StoreRefusal>
        ensures answer { result ≡ put_answer (meaning self.old) board }
        ensures after { meaning self.new ≡ put_after wear (meaning self.old) board state };

    // Makes the pending record standing.
    fn keep(&mut self, board: usize) -> Result<(), StoreRefusal>
        ensures answer { result ≡ keep_answer (meaning self.old) board }
        ensures after { meaning self.new ≡ keep_after (meaning self.old) board };

    // Drops the pending record.
    fn discard(&mut self, board: usize) -> Result<(), StoreRefusal>
        ensures answer { result ≡ keep_answer (meaning self.old) board }
        ensures after { meaning self.new ≡ discard_after (meaning self.old) board };
}
