ghost use Rattle.text.specs.Faults.{text_refusal};
ghost use Rattle.text.specs.Sentences.{says};
ghost use Rattle.text.specs.declared.causes.TextFault.TheVariants.{NoText};
ghost use Rattle.std.specs.Prelude.{◌≡◌, Some};

use crate::token::SyntaxFault;
use fault::{Fault, Layer};
use std::fmt;

/// Why a text was refused, with the place: a byte, counted from 0.
#[derive(Clone, Copy, PartialEq, Eq, Debug)]
pub enum TextFault {
    /// There is no byte.
    Empty,
    /// There are more than 4,096 bytes.
    TooLong,
    /// More than 31 brackets are open with this `(`.
    TooDeep(u32),
    /// The first byte, or the end, with which no text can go on.
    NoText(u32),
    /// The first word that the lexicon or the vocabulary lacks.
    UnknownWord(u32),
    /// The first word with more or fewer arguments than it takes.
    WrongArguments(u32),
}

impl TextFault {
    /// The refusal of a text that stands in the layer. The numbers are those of the printed line and of the answer to C.
    pub fn fault(self, layer: Layer) -> Fault
        ensures { result ≡ text_refusal layer self }
    {
        let (number, place) = match self {
            TextFault::Empty | TextFault::TooLong => (11, 0),
            TextFault::TooDeep(place) => (12, place),
            TextFault::NoText(place) => (13, place),
            TextFault::UnknownWord(place) => (14, place),
            TextFault::WrongArguments(place) => (15, place),
        };
        Fault {
            layer,
            number,
            place,
        }
    }

    /// What the fault says to a reader who is shown its place.
    pub fn sentence(self) -> &'static str
        ensures { result.now ≡ says self }
    {
        match self {
            TextFault::Empty => "the text is empty",
            TextFault::TooLong => "the text has more than 4096 bytes",
            TextFault::TooDeep(_) => "more than 31 brackets are open with this one",
            TextFault::NoText(_) => "no text can go on so",
            TextFault::UnknownWord(_) => "there is no such word",
            TextFault::WrongArguments(_) => "the word takes another number of arguments",
        }
    }
}

impl fmt::Display for TextFault {
    ghost output = { λ f. Some (says f) };

    /// Writes the fault's sentence.
    fn fmt<W: fmt::Write>(&self, f: &mut fmt::Formatter<W>) -> fmt::Result {
        f.write_str(self.sentence())
    }
}

impl From<SyntaxFault> for TextFault {
    ghost from_gives = { λ f r. r ≡ NoText f.place };

    fn from(fault: SyntaxFault) -> TextFault {
        TextFault::NoText(fault.place)
    }
}
