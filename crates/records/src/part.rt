// A part is a kind of record: a first record, and a rule for every event.
ghost use Rattle.std.specs.Prelude.{◌≡◌, fold};
ghost use Rattle.records.specs.Rules.{Rules, stepped, replayed};

use crate::event::{Board, Event, Word};

pub trait Part: Copy {
    // what the part means: its first record and its three rules
    ghost rules: { Rules Self };

    fn first() -> Self
        ensures { result ≡ rules.first };

    fn worked(self, word: Word) -> Self
        ensures { result ≡ rules.worked self word };

    fn sent(self, to: Board, word: Word) -> Self
        ensures { result ≡ rules.sent self to word };

    fn heard(self, from: Board, word: Word) -> Self
        ensures { result ≡ rules.heard self from word };
}

// One event's rule.
pub fn step<P: Part>(state: P, event: Event) -> P
    ensures { result ≡ stepped P.Part.rules state event }
{
    match event {
        Event::Worked { word } => state.worked(word),
        Event::Sent { to, word, .. } => state.sent(to, word),
        Event::Heard { from, word, .. } => state.heard(from, word),
    }
}

// A record with each event's rule applied in turn.
pub fn replay_from<P: Part>(start: P, events: &[Event]) -> P
    ensures { result ≡ fold (stepped P.Part.rules) start events.now }
{
    events
        .iter()
        .fold(start, |state, event| step(state, *event))
}

// The record that the rules make of a story.
pub fn replay<P: Part>(events: &[Event]) -> P
    ensures { result ≡ replayed P.Part.rules events.now }
{
    replay_from(P::first(), events)
}
