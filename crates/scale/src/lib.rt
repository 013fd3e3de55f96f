// Degrees of likeness: what a scale is, and the two scales of the depot. It knows nothing of words.
#![tactic(auto)]

mod causes;
mod coded;
mod lines;
mod lines_scale;
mod mark;
mod mark_scale;
mod offer;
mod scale;
mod told;

pub use causes::DegreeFault;
pub use lines::Lines;
pub use mark::Mark;
pub use offer::{at_most, degree_of, offered};
pub use scale::{Coded, Scale};
