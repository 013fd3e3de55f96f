ghost use Rattle.report.specs.declared.told.Untold.TheVariants.{NoMemory};
ghost use Rattle.std.specs.Prelude.{◌≡◌};

use std::alloc::AllocError;

/// Why there is no account of what was offered.
#[derive(Debug, Drop)]
pub enum Untold {
    /// It is refused; the text says so.
    Refused(String),
    /// There was no memory for the text.
    NoMemory(AllocError),
}

// Written out: a derived `From` has no contract, and `?` has to say which variant it makes.
impl From<AllocError> for Untold {
    ghost from_gives = { λ e r. r ≡ NoMemory e };

    fn from(error: AllocError) -> Untold {
        Untold::NoMemory(error)
    }
}
