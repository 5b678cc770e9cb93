// Paths worked through by the rules.
ghost use Rattle.path.specs.Worked.{Worked};

/// How many paths are worked through. What the rules give for each is stated here.
pub fn worked_paths() -> u8
    ensures { Worked }
{
    7
}
