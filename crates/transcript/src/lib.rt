// What a script of sheet calls comes to over a book: each line becomes a call, and each outcome an answer. It prints nothing.
#![tactic(auto)]

mod answering;
mod asking;
mod outcome;

pub use answering::{answers, lines_of};
pub use outcome::told;
