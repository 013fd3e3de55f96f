ghost use Rattle.fault.specs.Lines.{fault_line};
ghost use Rattle.fault.specs.Places.{at_words};
ghost use Rattle.fault.specs.declared.fault.Fault.{Fault};
ghost use Rattle.std.specs.Prelude.{◌≡◌, Some};

use crate::layer::Layer;
use std::fmt;

/// A refusal: its layer, its number and its place. The causes are enums of the layers; the number is what is printed and what C is
/// answered, so it stays a number, and each cause is turned into it in one function.
#[derive(Clone, Copy, PartialEq, Eq, Debug)]
pub struct Fault {
    pub layer: Layer,
    pub number: u8,
    pub place: u32,
}

impl Fault {
    /// A refusal of a book, a family tree, a dialect or a floor, at the words `i`, `j` and `k`; an unused one is 0.
    pub const fn at_words(number: u8, i: u8, j: u8, k: u8) -> Fault
        ensures { result ≡ at_words number i j k }
    {
        Fault {
            layer: Layer::Vocabulary,
            number,
            place: (i as u32 * 128 + j as u32) * 128 + k as u32,
        }
    }
}

impl fmt::Display for Fault {
    ghost output = { λ f. Some (fault_line f) };

    /// Writes `fault LAYER NUMBER PLACE`, in decimal.
    fn fmt<W: fmt::Write>(&self, f: &mut fmt::Formatter<W>) -> fmt::Result {
        let layer = self.layer.number();
        let number = self.number;
        let place = self.place;
        write!(f, "fault {layer} {number} {place}")
    }
}

/// What went wrong, in the words of one layer.
pub trait Cause {
    ghost refusal: { Self → Fault };

    /// The refusal that this cause is told as.
    fn fault(&self) -> Fault
        ensures { result ≡ refusal self.now };
}
