// Worked examples of the spare.
ghost use Rattle.journal.specs.Vectors.{Vectors};

// Promises the examples of the definitions that the contracts cite.
pub fn vectors_stand()
    ensures { Vectors }
{}
