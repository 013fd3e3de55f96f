ghost use Rattle.fault.specs.Layers.{layer_number};
ghost use Rattle.std.specs.Prelude.{◌≡◌};

/// What a refusal speaks of, by its number.
#[derive(Clone, Copy, PartialEq, Eq, Debug)]
pub enum Layer {
    /// A book, a family tree, a dialect or a floor.
    Vocabulary = 1,
    /// The sentence, or a text that is read alone.
    Sentence = 2,
    /// The message.
    Message = 3,
    /// A call on the sheet, or the showing of a row.
    Sheet = 4,
    /// The record.
    Record = 5,
}

impl Layer {
    /// The layer's number, from 1 to 5.
    pub fn number(self) -> u8
        ensures { result ≡ layer_number self }
    {
        self as u8
    }
}
