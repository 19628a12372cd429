// The pick number that every record has.
ghost use Rattle.std.specs.Prelude.{◌≡◌};
ghost use Rattle.records.specs.Picks.{picked};

const LAST_PICK: u32 = 999_999;

// The pick after this one; the last one is its own.
pub fn next_pick(pick: u32) -> u32
    ensures { result ≡ picked pick }
{
    if pick < LAST_PICK {
        pick + 1
    } else {
        LAST_PICK
    }
}
