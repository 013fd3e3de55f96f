// Rows, equations and numbers in fixed memory. It knows no closure.
#![tactic(auto)]

mod equations;
mod limits;
mod numbers;
mod row;
mod rows;

pub use equations::{Equation, Equations, find_outside};
pub use limits::{LABELS, MOST_EQUATIONS, MOST_ROWS, SLOTS};
pub use numbers::Numbers;
pub use row::Row;
pub use rows::Rows;
