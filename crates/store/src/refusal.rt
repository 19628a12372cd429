// Why a call of a store is refused, and why a store is not made.
ghost use Rattle.std.specs.Prelude.{◌≡◌};
ghost use Rattle.std.specs.Result.{result_err};
ghost use Rattle.store.specs.Meaning.{refusal_number, make_number, make_refused};

// the most boards of a store
const MAX_BOARDS: usize = 64;

#[derive(Clone, Copy, PartialEq, Eq, Debug)]
pub enum StoreRefusal {
    // there is no such board
    BadBoard = 31,
    // a record is pending where none may be, or none where one must be
    WrongPending = 32,
    // nothing is left to spend
    NoSpare = 33,
}

#[derive(Clone, Copy, PartialEq, Eq, Debug)]
pub enum MakeRefusal {
    // no board, or more than 64
    BadCount = 34,
    // too few places, or too many
    BadRoom = 35,
}

impl StoreRefusal {
    pub fn number(self) -> u32
        ensures { result ≡ refusal_number self }
    {
        self as u32
    }
}

impl MakeRefusal {
    pub fn number(self) -> u32
        ensures { result ≡ make_number self }
    {
        self as u32
    }

    // Refuses a wrong count of boards, and then a memory that does not fit them, as the caller has found.
    pub fn check(boards: usize, unfit: bool) -> Result<(), MakeRefusal>
        ensures { result_err result ≡ make_refused unfit boards }
    {
        if boards == 0 || boards > MAX_BOARDS {
            return Err(MakeRefusal::BadCount);
        }
        if unfit {
            return Err(MakeRefusal::BadRoom);
        }
        Ok(())
    }
}
