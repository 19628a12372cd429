// The two rounds, and how far a board is in one.

// a checkpoint round (saving) or a rollback round (going back)
#[derive(Clone, Copy, PartialEq, Eq, Debug)]
pub enum Round {
    Save,
    Back,
}

// A board that is not free is held in its round.
#[derive(Clone, Copy, PartialEq, Eq, Debug)]
pub enum Phase {
    // in no round
    Free,
    // waiting for the answers of the boards that it asked
    Gathering(Round),
    // it has answered its asker, or decided if it is the starter, and waits for the decision
    Answered(Round),
}
