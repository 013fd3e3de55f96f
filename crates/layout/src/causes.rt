ghost use Rattle.layout.specs.Faults.{form_refusal};

use fault::{Cause, Fault};

/// What is wrong with the entry of a word.
#[derive(Clone, Copy, PartialEq, Eq, Debug)]
pub enum EntryFault {
    /// The book ends within the entry.
    Cut,
    /// The arity is above 6.
    Arity,
    /// The spelling is empty or longer than 16 characters.
    Length,
    /// A character may not stand where it stands.
    Spelling,
    /// The word with this number has the same spelling.
    Repeated(u8),
}

/// What is wrong with the form of a book, laws aside.
#[derive(Clone, Copy, PartialEq, Eq, Debug)]
pub enum FormFault {
    /// There are fewer than 5 bytes.
    Short,
    /// The length field does not say how many bytes come after it.
    Length,
    /// This version is unknown.
    Version(u8),
    /// This kind is unknown.
    Kind(u8),
    /// This count of words is none of 1 to 128.
    Count(u8),
    /// The entry of this word is wrong.
    Entry(u8, EntryFault),
    /// The book ends before its table does.
    TableCut,
    /// Bytes are left over behind the table.
    LeftOver,
}

// The numbers are those of the printed line and of the answer to C.
impl Cause for FormFault {
    ghost refusal = { form_refusal };

    fn fault(&self) -> Fault {
        match *self {
            FormFault::Short | FormFault::Length | FormFault::TableCut | FormFault::LeftOver =>
                Fault::at_words(1, 0, 0, 0),
            FormFault::Version(_) | FormFault::Kind(_) | FormFault::Count(_) => Fault::at_words(
                2, 0, 0, 0,
            ),
            FormFault::Entry(i, fault) => match fault {
                EntryFault::Cut => Fault::at_words(1, 0, 0, 0),
                EntryFault::Arity
                | EntryFault::Length
                | EntryFault::Spelling
                | EntryFault::Repeated(_) => Fault::at_words(3, i, 0, 0),
            },
        }
    }
}
