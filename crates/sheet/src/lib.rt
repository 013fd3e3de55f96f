// A sheet over any vocabulary: rows are made on it and equated, and it answers its degree and its representatives. One text for every scale.
#![tactic(auto)]

mod calls;
mod causes;
mod degree;
mod replaying;
mod sheet;

pub use calls::{Answer, Call};
pub use causes::{ComposeFault, EquateFault, NoRow, SheetFault, VariableFault};
pub use replaying::replay;
pub use sheet::Sheet;
