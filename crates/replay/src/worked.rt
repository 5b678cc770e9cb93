// Sheets worked through.
ghost use Rattle.replay.specs.Worked.{Worked};

/// How many sheets are worked through, from halves to whole plans. What the definitions give for each is stated here.
pub fn worked_sheets() -> u8
    ensures { Worked }
{
    17
}
