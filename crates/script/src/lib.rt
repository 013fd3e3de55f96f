// The lines of a script of sheet calls, and the lines that answer them. It must know no sheet, no word and no likeness.
#![tactic(auto)]

mod answer;
mod field;
mod line;
mod verb;

pub use answer::Answer;
pub use field::{next_number, numbers};
pub use line::{Line, parse_line};
