// What a board line says of the board besides its record.
ghost use Rattle.std.specs.Prelude.{◌≡◌};
ghost use Rattle.report.specs.Lines.{state_number};

#[derive(Clone, Copy, PartialEq, Eq, Debug)]
pub enum BoardState {
    Free = 0,
    // it takes part in a round
    Held = 1,
    // it stopped, and its record is lost
    Lost = 2,
    Stopped = 3,
}

impl BoardState {
    pub fn number(self) -> u32
        ensures { result ≡ state_number self }
    {
        self as u32
    }
}
