ghost use Rattle.tree.specs.Verdicts.{tree_refusal};

use fault::{Cause, Fault};

/// What is wrong with a word of a family tree.
#[derive(Clone, Copy, PartialEq, Eq, Debug)]
pub enum Flaw {
    /// Its arity is above 6.
    Arity,
    /// Its parent is neither itself nor a lower word of the same arity.
    Parent,
    /// The number given for its degree is the code of none.
    Code,
}

/// Why three lists are no family tree.
#[derive(Clone, Copy, PartialEq, Eq, Debug)]
pub enum TreeFault {
    /// They are not of one length.
    Lengths,
    /// There are so many words, and not 1 to 128.
    Count(usize),
    /// The lowest word that is not fit, and what is wrong with it.
    Word(u8, Flaw),
}

// The numbers are those of the printed line and of the answer to C.
impl Cause for TreeFault {
    ghost refusal = { tree_refusal };

    fn fault(&self) -> Fault {
        let word = match self {
            TreeFault::Lengths | TreeFault::Count(_) => 0,
            TreeFault::Word(word, _) => *word,
        };
        Fault::at_words(9, word, 0, 0)
    }
}
