ghost use Rattle.reading.specs.Faults.{read_refusal};
ghost use Rattle.reading.specs.declared.causes.ReadFault.TheVariants.{Full, Text};
ghost use Rattle.std.specs.Prelude.{◌≡◌};

use fault::{Fault, Layer};
use table::RowFault;
use text::TextFault;

/// There is no room for a further row.
#[derive(Clone, Copy, PartialEq, Eq, Debug)]
pub struct NoRoom;

impl From<RowFault> for NoRoom {
    ghost from_gives = { λ _ _. Unit {0} };

    fn from(_fault: RowFault) -> NoRoom {
        NoRoom
    }
}

/// Why a text was not read.
#[derive(Clone, Copy, PartialEq, Eq, Debug)]
pub enum ReadFault {
    /// The text was refused.
    Text(TextFault),
    /// There would be more than 512 rows.
    Full,
}

impl ReadFault {
    /// The refusal of a text that stands in the layer. The numbers are those of the printed line and of the answer to C.
    pub fn fault(self, layer: Layer) -> Fault
        ensures { result ≡ read_refusal layer self }
    {
        match self {
            ReadFault::Text(fault) => fault.fault(layer),
            ReadFault::Full => Fault {
                layer,
                number: 24,
                place: 0,
            },
        }
    }
}

impl From<TextFault> for ReadFault {
    ghost from_gives = { λ f r. r ≡ Text f };

    fn from(fault: TextFault) -> ReadFault {
        ReadFault::Text(fault)
    }
}

impl From<NoRoom> for ReadFault {
    ghost from_gives = { λ _ r. r ≡ Full };

    fn from(_fault: NoRoom) -> Self {
        Self::Full
    }
}
