// Worked examples of the rules.
ghost use Rattle.records.specs.Vectors.{Vectors};

// Promises the examples of the definitions that the contracts cite.
pub fn vectors_stand()
    ensures { Vectors }
{}
