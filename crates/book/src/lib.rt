// Books of likenesses: their laws, their check, and the books that passed it. It knows nothing of terms.
#![tactic(auto)]

mod book;
mod causes;
mod checks;
mod degrees;
mod laws;

pub use book::{Book, LinesBook, MarksBook};
pub use causes::{BookFault, LawFault};
pub use checks::check;
pub use degrees::likeness;
pub use layout::Kind;
