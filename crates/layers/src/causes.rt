ghost use Rattle.layers.specs.Verdicts.{dialect_refusal};

use fault::{Cause, Fault};

/// Why a list of entries is no dialect.
#[derive(Clone, Copy, PartialEq, Eq, Debug)]
pub enum DialectFault {
    /// There are so many entries, and not 1 to 128.
    Count(usize),
    /// The lowest entry that is no word below.
    Entry(u8),
}

// The numbers are those of the printed line and of the answer to C.
impl Cause for DialectFault {
    ghost refusal = { dialect_refusal };

    fn fault(&self) -> Fault {
        let entry = match self {
            DialectFault::Count(_) => 0,
            DialectFault::Entry(entry) => *entry,
        };
        Fault::at_words(10, entry, 0, 0)
    }
}
