ghost use Rattle.scale.specs.Scales.{AtMost, degree_of};
ghost use Rattle.scale.specs.declared.causes.DegreeFault.TheVariants.{NoDegree};
ghost use Rattle.std.specs.Option.{ok_or};
ghost use Rattle.std.specs.Prelude.{◌≡◌, Decides};

use crate::causes::DegreeFault;
use crate::scale::Scale;

/// The degree that the number is the code of; refused where there is none.
pub fn offered<S: Scale>(code: u16) -> Result<S, DegreeFault>
    ensures { result ≡ ok_or (S.Scale.operations.decoded code) (NoDegree code) }
{
    S::from_code(code).ok_or(DegreeFault::NoDegree(code))
}

/// The degree that the number is the code of, and bottom where there is none.
pub fn degree_of<S: Scale>(code: u16) -> S
    ensures { result ≡ degree_of S.Scale.operations code }
{
    S::from_code(code).unwrap_or(S::bottom())
}

/// Whether `d` is at most `e`: whether their meet is `d`.
pub fn at_most<S: Scale>(d: S, e: S) -> bool
    ensures { Decides result (AtMost S.Scale.operations d e) }
{
    d.meet(e) == d
}
