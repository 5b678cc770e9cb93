// Worked examples, shown of the definitions.
ghost use Rattle.monoid.specs.Worked.{Worked};

/// The examples hold.
pub fn worked_stand()
    ensures { Worked }
{}
