// A harness board's record: the pick, the last word lifted, and a sum of the words said and heard.
ghost use Rattle.std.specs.Prelude.{◌≡◌, ◌<◌};
ghost use Rattle.records.specs.Harness.{harness_rules, summed};

use crate::event::{Board, Word};
use crate::part::Part;
use crate::pick::next_pick;

#[derive(Clone, Copy, Default, PartialEq, Eq, Debug)]
pub struct Harness {
    pub pick: u32,
    pub lifted: u32,
    pub sum: u32,
}

impl Harness {
    // The sum rotated by so many places, and then exclusive-or the word.
    fn sum_with(self, places: u32, word: Word) -> Harness
        requires positive { 0 < places }
        requires small { places < 32 }
        ensures { result ≡ summed places self word }
    {
        Harness {
            sum: self.sum.rotate_left(places) ^ word,
            ..self
        }
    }
}

impl Part for Harness {
    ghost rules = { harness_rules };

    fn first() -> Harness {
        Harness::default()
    }

    fn worked(self, word: Word) -> Harness {
        Harness {
            pick: next_pick(self.pick),
            lifted: word % 257,
            ..self
        }
    }

    fn sent(self, _to: Board, word: Word) -> Harness {
        self.sum_with(3, word)
    }

    fn heard(self, _from: Board, word: Word) -> Harness {
        self.sum_with(5, word)
    }
}
