ghost use Rattle.sheet.specs.Faults.{join_refusal, label_refusal, on_sheet, row_refusal, sheet_refusal};
ghost use Rattle.sheet.specs.declared.causes.SheetFault.TheVariants.{Back, Compose, Equate, Read, Resolve, Variable};
ghost use Rattle.std.specs.Prelude.{◌≡◌};

use fault::{Cause, Fault, Layer};
use reading::ReadFault;
use table::{BackFault, JoinFault, RowFault};

/// Why there is no row of a label.
#[derive(Clone, Copy, PartialEq, Eq, Debug)]
pub enum VariableFault {
    /// The label is above 99.
    Label,
    /// There are 512 rows.
    Full,
}

// Here and below each `From` is written out: a derived one has no contract, and `?` has to say which variant it makes.
impl From<RowFault> for VariableFault {
    ghost from_gives = { λ fault r. r ≡ label_refusal fault };

    // a table that is asked for a label refuses it, or has no room
    fn from(fault: RowFault) -> VariableFault {
        match fault {
            RowFault::Label => VariableFault::Label,
            _ => VariableFault::Full,
        }
    }
}

/// Why a row is not composed.
#[derive(Clone, Copy, PartialEq, Eq, Debug)]
pub enum ComposeFault {
    /// There is no such word.
    NoWord,
    /// The word takes another number of arguments.
    WrongArguments,
    /// The argument at this position, from 0, is no row.
    NoRow(u16),
    /// There are 512 rows.
    Full,
}

impl From<RowFault> for ComposeFault {
    ghost from_gives = { λ fault r. r ≡ row_refusal fault };

    fn from(fault: RowFault) -> ComposeFault {
        match fault {
            RowFault::TooMany => ComposeFault::WrongArguments,
            RowFault::Missing(i) => ComposeFault::NoRow(i),
            // there is no label, so the table has no room
            RowFault::Label | RowFault::Full => ComposeFault::Full,
        }
    }
}

/// Why two rows are not equated.
#[derive(Clone, Copy, PartialEq, Eq, Debug)]
pub enum EquateFault {
    /// The side at this position, 0 or 1, is no row.
    NoRow(u16),
    /// There are 128 equations.
    Full,
    /// The degree would be bottom.
    Clash,
    /// There would be a cycle.
    Occurs,
}

impl From<JoinFault> for EquateFault {
    ghost from_gives = { λ fault r. r ≡ join_refusal fault };

    fn from(fault: JoinFault) -> EquateFault {
        match fault {
            JoinFault::Missing(i) => EquateFault::NoRow(i),
            JoinFault::Full => EquateFault::Full,
            JoinFault::Unequal(_) => EquateFault::Clash,
        }
    }
}

/// There is no such row.
#[derive(Clone, Copy, PartialEq, Eq, Debug)]
pub struct NoRow;

/// Why a call on a sheet is refused.
#[derive(Clone, Copy, PartialEq, Eq, Debug)]
pub enum SheetFault {
    Variable(VariableFault),
    Compose(ComposeFault),
    Read(ReadFault),
    Equate(EquateFault),
    Back(BackFault),
    Resolve(NoRow),
}

impl From<VariableFault> for SheetFault {
    ghost from_gives = { λ fault r. r ≡ Variable fault };

    fn from(fault: VariableFault) -> SheetFault {
        SheetFault::Variable(fault)
    }
}

impl From<ComposeFault> for SheetFault {
    ghost from_gives = { λ fault r. r ≡ Compose fault };

    fn from(fault: ComposeFault) -> SheetFault {
        SheetFault::Compose(fault)
    }
}

impl From<ReadFault> for SheetFault {
    ghost from_gives = { λ fault r. r ≡ Read fault };

    fn from(fault: ReadFault) -> SheetFault {
        SheetFault::Read(fault)
    }
}

impl From<EquateFault> for SheetFault {
    ghost from_gives = { λ fault r. r ≡ Equate fault };

    fn from(fault: EquateFault) -> SheetFault {
        SheetFault::Equate(fault)
    }
}

impl From<BackFault> for SheetFault {
    ghost from_gives = { λ fault r. r ≡ Back fault };

    fn from(fault: BackFault) -> SheetFault {
        SheetFault::Back(fault)
    }
}

impl From<NoRow> for SheetFault {
    ghost from_gives = { λ fault r. r ≡ Resolve fault };

    fn from(fault: NoRow) -> SheetFault {
        SheetFault::Resolve(fault)
    }
}

/// The refusal of a call on a sheet.
fn on_sheet(number: u8, place: u32) -> Fault
    ensures { result ≡ on_sheet number place }
{
    Fault {
        layer: Layer::Sheet,
        number,
        place,
    }
}

// The numbers are those of the printed line and of the answer to C.
impl Cause for SheetFault {
    ghost refusal = { sheet_refusal };

    /// A text is told as one that is read alone.
    fn fault(&self) -> Fault {
        match self {
            SheetFault::Variable(VariableFault::Label) => on_sheet(19, 0),
            SheetFault::Variable(VariableFault::Full) => on_sheet(24, 0),
            SheetFault::Compose(ComposeFault::NoWord) => on_sheet(16, 0),
            SheetFault::Compose(ComposeFault::WrongArguments) => on_sheet(17, 0),
            SheetFault::Compose(ComposeFault::NoRow(i)) => on_sheet(18, *i as u32),
            SheetFault::Compose(ComposeFault::Full) => on_sheet(24, 0),
            SheetFault::Read(cause) => cause.fault(Layer::Sentence),
            SheetFault::Equate(EquateFault::NoRow(i)) => on_sheet(18, *i as u32),
            SheetFault::Equate(EquateFault::Full) => on_sheet(25, 0),
            SheetFault::Equate(EquateFault::Clash) => on_sheet(22, 0),
            SheetFault::Equate(EquateFault::Occurs) => on_sheet(23, 0),
            SheetFault::Back(_) => on_sheet(20, 0),
            SheetFault::Resolve(_) => on_sheet(18, 0),
        }
    }
}
