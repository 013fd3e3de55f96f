ghost use Rattle.transcript.specs.Told.{answer_of};
ghost use Rattle.std.specs.Prelude.{◌≡◌};

use fault::Cause;
use scale::Coded;
use script::Answer;
use sheet::SheetFault;

/// What is answered to a line whose call had this outcome: a degree by its code, a refusal by its layer, number and place.
pub fn told<D: Coded>(outcome: Result<sheet::Answer<D>, SheetFault>) -> Answer
    ensures { result ≡ answer_of D.Coded.number outcome }
{
    match outcome {
        Ok(sheet::Answer::Row(row)) => Answer::Row(row),
        Ok(sheet::Answer::Done) => Answer::Done,
        Ok(sheet::Answer::Marked(rows, equations)) => Answer::Mark(rows, equations),
        Ok(sheet::Answer::Degree(degree)) => Answer::Degree(degree.code()),
        Err(cause) => Answer::Refused(cause.fault()),
    }
}
