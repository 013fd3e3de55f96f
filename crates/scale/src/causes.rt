ghost use Rattle.scale.specs.Faults.{degree_refusal};

use fault::{Cause, Fault, Layer};

/// Why a number offered as a degree was refused.
#[derive(Clone, Copy, PartialEq, Eq, Debug)]
pub enum DegreeFault {
    /// The number is the code of no degree: on marks, it is above 1,000.
    NoDegree(u16),
}

// The numbers are those of the printed line and of the answer to C.
impl Cause for DegreeFault {
    ghost refusal = { degree_refusal };

    fn fault(&self) -> Fault {
        match self {
            DegreeFault::NoDegree(_) => Fault {
                layer: Layer::Vocabulary,
                number: 4,
                place: 0,
            },
        }
    }
}
