// Worked cases of the definitions, from the bytes of two texts to what comes of equating them. It must know no code that reads, puts or solves.
#![tactic(auto)]

ghost use Rattle.worked.specs.Worked.{WorkedCases};

/// Nine pairs of texts over eight words are matched, or refused, as worked out by hand.
pub fn worked_cases_hold()
    ensures { WorkedCases }
{}
