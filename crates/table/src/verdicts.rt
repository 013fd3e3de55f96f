ghost use Rattle.table.specs.Verdicts.{CallsSettled};

/// Does nothing. What a call answers, and the sheet that it leaves, is settled by the sheet and what is asked.
pub fn calls_are_settled()
    ensures { CallsSettled }
{}
