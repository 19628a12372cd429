// A feed drive's record: the pick, and tension and length in single precision.
ghost use Rattle.std.specs.Prelude.{◌≡◌, ◌<◌};
ghost use Rattle.std.specs.Float.{binary32};
ghost use Rattle.std.specs.Float.Ieee.{mul};
ghost use Rattle.records.specs.Feed.{feed_rules, measured, kept, fed, pulled, whole, quarter, half};

use crate::event::{Board, Word};
use crate::part::Part;
use crate::pick::next_pick;
use std::num::{f32_from_bits_with_nan, f32_to_bits_with_nan};

// as it is kept and handed on: tension and length as their 32 bits
#[derive(Clone, Copy, Default, PartialEq, Eq, Debug)]
pub struct Feed {
    pub pick: u32,
    pub tension: u32,
    pub length: u32,
}

// tension and length as the rules work on them
#[derive(Clone, Copy)]
pub struct Measures {
    tension: f32,
    length: f32,
}

// n quarters.
fn quarters(n: u32) -> f32
    requires { n < 1024 }
    ensures { result ≡ mul binary32 (whole n) quarter }
{
    n as f32 * 0.25
}

fn halved(x: f32) -> f32
    ensures { result ≡ mul binary32 x half }
{
    x * 0.5
}

impl From<Feed> for Measures {
    ghost from_gives = { λ f m. m ≡ measured f.tension f.length };

    fn from(kept: Feed) -> Measures {
        Measures {
            tension: f32_from_bits_with_nan(kept.tension),
            length: f32_from_bits_with_nan(kept.length),
        }
    }
}

impl Measures {
    // The length grows by n quarters.
    fn feed(self, n: u32) -> Measures
        requires { n < 1024 }
        ensures { result ≡ fed self n }
    {
        Measures {
            length: self.length + quarters(n),
            ..self
        }
    }

    // The tension is halved, and then grows by n.
    fn pull(self, n: u32) -> Measures
        requires { n < 256 }
        ensures { result ≡ pulled self n }
    {
        Measures {
            tension: halved(self.tension) + n as f32,
            ..self
        }
    }

    // A NaN has the bits 7fc00000, whatever its bits were.
    fn keep(self, pick: u32) -> Feed
        ensures { result ≡ kept pick self }
    {
        Feed {
            pick,
            tension: f32_to_bits_with_nan(self.tension),
            length: f32_to_bits_with_nan(self.length),
        }
    }
}

impl Part for Feed {
    ghost rules = { feed_rules };

    fn first() -> Feed {
        Feed::default()
    }

    fn worked(self, word: Word) -> Feed {
        let measures = Measures::from(self);
        measures.feed(word % 1024).keep(next_pick(self.pick))
    }

    fn sent(self, _to: Board, _word: Word) -> Feed {
        self
    }

    fn heard(self, _from: Board, word: Word) -> Feed {
        let measures = Measures::from(self);
        measures.pull(word % 256).keep(self.pick)
    }
}
