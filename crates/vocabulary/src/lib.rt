// What the matcher asks of words: how many arguments, how much alike, how spelled. It knows no format.
#![tactic(auto)]

mod arity_list;
mod lexicon;
mod limits;
mod spelling;
mod vocabulary;

pub use arity_list::arities;
pub use lexicon::Lexicon;
pub use limits::{LONGEST_SPELLING, MOST_ARGUMENTS, MOST_WORDS};
pub use spelling::{same_spelling, spells};
pub use vocabulary::Vocabulary;
