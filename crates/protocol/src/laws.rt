// What is promised of the rules themselves, for every order of turns.
ghost use Rattle.protocol.specs.Examples.{Examples};
ghost use Rattle.protocol.specs.Laws.{SoundRuns};

use records::part::Part;

// Promises that every run from a new console over a new store is sound.
pub fn laws_stand<P: Part>()
    ensures { SoundRuns P.Part.rules }
{}

// Promises the worked examples of the rules.
pub fn examples_stand<P: Part>()
    ensures { Examples P.Part.rules }
{}
