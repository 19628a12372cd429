// A set of boards of one loom.
ghost use Rattle.std.specs.Prelude.{◌≡◌, ℕ, ◌<◌, ◌≤◌, ◌^◌, ◌&&◌, ◌==◌, not};
ghost use Rattle.rows.specs.Bits.{has_bit};

// the most boards of a loom
pub const MAX_BOARDS: usize = 19;

// bits, with the number of the loom's boards: it never holds a number outside the loom
#[derive(Clone, Copy, PartialEq, Eq, Debug)]
pub struct BoardSet {
    bits: u32,
    boards: u32,
    ghost few: { boards ≤ 19 },
    ghost inside: { bits < 2 ^ boards },
}

// The bits with that of the board cleared.
pub(crate) fn without(bits: u32, board: u32) -> u32
    requires { board < 32 }
    ensures less { result ≤ bits }
    ensures others { (k : ℕ) → has_bit result k ≡ (has_bit bits k && not (k == board)) }
{
    bits & !(1 << board)
}

impl BoardSet {
    ghost use Rattle.std.specs.Prelude.{◌≡◌, ℕ, ◌||◌, ◌&&◌, ◌==◌, not, IsSome, IfSome, IsTrue, ◌↔◌, nat_lt, false};
    ghost use Rattle.rows.specs.Sets.{is_in};

    // The set of these bits, where they are all of boards of the loom.
    pub fn from_bits(bits: u32, boards: u32) -> Option<BoardSet>
        ensures fits { IsSome result ↔ ((boards ≤ 19) × (bits < 2 ^ boards)) }
        ensures value { IfSome result (λ s. (s.bits ≡ bits) × (s.boards ≡ boards)) }
    {
        if boards <= MAX_BOARDS as u32 && bits < 1 << boards {
            Some(BoardSet { bits, boards })
        } else {
            None
        }
    }

    // The empty set.
    pub fn none(boards: u32) -> Option<BoardSet>
        ensures fits { IsSome result ↔ (boards ≤ 19) }
        ensures count { IfSome result (λ s. s.boards ≡ boards) }
        ensures members { IfSome result (λ s. (k : ℕ) → is_in s k ≡ false) }
    {
        BoardSet::from_bits(0, boards)
    }

    pub fn bits(self) -> u32
        ensures value { result ≡ self.bits }
        ensures inside { result < 2 ^ self.boards }
    {
        self.bits
    }

    pub fn contains(self, board: u32) -> bool
        ensures { result ≡ is_in self board }
    {
        board < self.boards && self.bits >> board & 1 == 1
    }

    // Answers whether the board is one of the loom; no other is put in.
    pub fn insert(&mut self, board: u32) -> bool
        ensures answer { result ≡ nat_lt board self.old.boards }
        ensures count { self.new.boards ≡ self.old.boards }
        ensures members { (k : ℕ) → is_in self.new k ≡ (is_in self.old k || (result && k == board)) }
    {
        if board >= self.boards {
            return false;
        }
        self.bits |= 1 << board;
        true
    }

    pub fn remove(&mut self, board: u32)
        ensures count { self.new.boards ≡ self.old.boards }
        ensures members { (k : ℕ) → is_in self.new k ≡ (is_in self.old k && not (k == board)) }
    {
        if board < self.boards {
            self.bits = without(self.bits, board);
        }
    }

    pub fn is_empty(self) -> bool
        ensures { IsTrue result ↔ ((k : ℕ) → is_in self k ≡ false) }
    {
        self.bits == 0
    }
}
