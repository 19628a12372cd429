// How far a board is in a round.
ghost use Rattle.std.specs.Prelude.{◌≡◌};
ghost use Rattle.protocol.specs.Rows.{held};
ghost use Rattle.protocol.specs.Rounds.{has_answered};

use turns::round::{Phase, Round};

// Whether a board is held in a round: it is not free.
pub fn is_held(phase: Phase) -> bool
    ensures { result ≡ held phase }
{
    phase != Phase::Free
}

// Whether a board has answered in this round, and waits for its decision.
pub fn has_answered(phase: Phase, round: Round) -> bool
    ensures { result ≡ has_answered round phase }
{
    phase == Phase::Answered(round)
}
