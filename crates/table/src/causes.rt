ghost use Rattle.std.specs.Prelude.{◌≡◌};
ghost use Rattle.table.specs.declared.causes.JoinFault.TheVariants.{Unequal};

/// Why a table takes no more rows.
#[derive(Clone, Copy, PartialEq, Eq, Debug)]
pub enum RowFault {
    /// More arguments than a row has slots.
    TooMany,
    /// The argument at this position, from 0, is no row.
    Missing(u16),
    /// No label: not below `LABELS`.
    Label,
    /// There are `MOST_ROWS` rows.
    Full,
}

/// Why a table does not go back.
#[derive(Clone, Copy, PartialEq, Eq, Debug)]
pub enum BackFault {
    /// There are fewer rows.
    Rows,
    /// There are fewer equations.
    Equations,
    /// An equation that would be kept is about a row that would not.
    Dropped,
}

/// Two composed rows that have to be equal, with different numbers of arguments.
#[derive(Clone, Copy, PartialEq, Eq, Debug)]
pub struct Unequal {
    pub left: u16,
    pub right: u16,
}

/// Why a table takes no equation.
#[derive(Clone, Copy, PartialEq, Eq, Debug)]
pub enum JoinFault {
    /// The side at this position, 0 or 1, is no row.
    Missing(u16),
    /// There are `MOST_EQUATIONS` equations.
    Full,
    /// With the equation these two composed rows would be in the closure, and have different numbers of arguments.
    Unequal(Unequal),
}

impl From<Unequal> for JoinFault {
    ghost from_gives = { λ u fault. fault ≡ Unequal u };

    fn from(unequal: Unequal) -> JoinFault {
        JoinFault::Unequal(unequal)
    }
}
