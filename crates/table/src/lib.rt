// The plain table of a sheet: its rows and equations, and for each row the number of its class. It knows no words and no degrees.
#![tactic(auto)]

mod causes;
mod classing;
mod closing;
mod deepening;
mod rebuilding;
mod table;
mod verdicts;

pub use causes::{BackFault, JoinFault, RowFault, Unequal};
pub use rows::{Equation, LABELS, MOST_EQUATIONS, MOST_ROWS, Numbers, Row};
pub use table::Table;
pub use verdicts::calls_are_settled;
