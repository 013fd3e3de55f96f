// Reads a checked text onto a table: its rows, by a loop with a stack of open words. It knows no likeness.
#![tactic(auto)]

mod causes;
mod read;
mod words;

pub use causes::ReadFault;
pub use read::read_text;
