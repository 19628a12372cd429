// Why a console is not made.
ghost use Rattle.std.specs.Prelude.{◌≡◌};
ghost use Rattle.turns.specs.Numbers.{making_number};

// Each has its number.
#[derive(Clone, Copy, PartialEq, Eq, Debug)]
pub enum MakingRefusal {
    // no board, or more than 19
    BadCount = 14,
    // the store has another number of boards, or a pending record
    BadStore = 16,
    // the state table does not have a record for each board
    WrongTable = 15,
}

impl MakingRefusal {
    pub fn number(self) -> u32
        ensures { result ≡ making_number self }
    {
        self as u32
    }
}
