ghost use Rattle.book.specs.Faults.{book_refusal, law_refusal};
ghost use Rattle.book.specs.declared.causes.BookFault.TheVariants.{Form, Law};
ghost use Rattle.std.specs.Prelude.{◌≡◌};

use fault::{Cause, Fault};
use layout::FormFault;

/// Which law a table breaks first, and at which words.
#[derive(Clone, Copy, PartialEq, Eq, Debug)]
pub enum LawFault {
    /// The table's number for the two words is no degree: on marks, it is above 1,000.
    NoDegree(u8, u8),
    /// The word is not wholly alike to itself.
    Reflexivity(u8),
    /// The table has another number for the first and the second than for the second and the first.
    Symmetry(u8, u8),
    /// The two words have different arities and are alike above bottom.
    Arity(u8, u8),
    /// The first and the last are alike less than through the second.
    Transitivity(u8, u8, u8),
}

/// Why bytes were refused as a book.
#[derive(Clone, Copy, PartialEq, Eq, Debug)]
pub enum BookFault {
    Form(FormFault),
    Law(LawFault),
}

// Written out: a derived `From` has no contract, and `?` has to say which variant it makes.
impl From<FormFault> for BookFault {
    ghost from_gives = { λ f b. b ≡ Form f };

    fn from(value: FormFault) -> BookFault {
        BookFault::Form(value)
    }
}

impl From<LawFault> for BookFault {
    ghost from_gives = { λ f b. b ≡ Law f };

    fn from(value: LawFault) -> BookFault {
        BookFault::Law(value)
    }
}

// The numbers are those of the printed line and of the answer to C.
impl Cause for LawFault {
    ghost refusal = { law_refusal };

    fn fault(&self) -> Fault {
        match *self {
            LawFault::NoDegree(i, j) => Fault::at_words(4, i, j, 0),
            LawFault::Reflexivity(i) => Fault::at_words(5, i, 0, 0),
            LawFault::Symmetry(i, j) => Fault::at_words(6, i, j, 0),
            LawFault::Arity(i, j) => Fault::at_words(7, i, j, 0),
            LawFault::Transitivity(i, j, k) => Fault::at_words(8, i, j, k),
        }
    }
}

impl Cause for BookFault {
    ghost refusal = { book_refusal };

    fn fault(&self) -> Fault {
        match self {
            BookFault::Form(fault) => fault.fault(),
            BookFault::Law(fault) => fault.fault(),
        }
    }
}
