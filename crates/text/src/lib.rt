// Whether bytes are the text of a term, and where they fail to be. It knows no sheet and no likeness.
#![tactic(auto)]

mod brackets;
mod causes;
mod check;
mod items;
mod lexer;
mod reader;
mod signature;
mod source;
mod token;
mod words;

pub use brackets::DEEPEST;
pub use causes::TextFault;
pub use check::check_text;
pub use items::{Item, ItemAt};
pub use source::Source;
