ghost use Rattle.layout.specs.Kinds.{Decodes, kind_text};
ghost use Rattle.std.specs.Prelude.{Some};

use crate::causes::FormFault;
use std::fmt;

/// What the likenesses of a book are.
#[derive(Clone, Copy, PartialEq, Eq, Debug)]
pub enum Kind {
    Marks,
    Lines,
}

impl TryFrom<u8> for Kind {
    type Error = FormFault;

    ghost try_from_gives = { Decodes };

    fn try_from(byte: u8) -> Result<Kind, FormFault> {
        match byte {
            1 => Ok(Kind::Marks),
            2 => Ok(Kind::Lines),
            _ => Err(FormFault::Kind(byte)),
        }
    }
}

impl fmt::Display for Kind {
    ghost output = { λ k. Some (kind_text k) };

    /// Writes the kind's name.
    fn fmt<W: fmt::Write>(&self, f: &mut fmt::Formatter<W>) -> fmt::Result {
        f.write_str(match self {
            Kind::Marks => "marks",
            Kind::Lines => "lines",
        })
    }
}
