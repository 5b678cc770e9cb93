ghost use Rattle.geometry.specs.Worked.{Worked};

/// The worked examples, which the definitions give.
pub fn worked_examples() -> u8
    ensures { Worked }
{
    9
}
