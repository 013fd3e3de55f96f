// Layers over any vocabulary: a floor under the likenesses, and a dialect of other words. It knows no vocabulary of its own.
#![tactic(auto)]

mod causes;
mod dialect;
mod floor;
mod table;

pub use causes::DialectFault;
pub use dialect::{Dialect, check_dialect};
pub use floor::Floor;
