// What a translator is told of a book: an account of a good one, a sentence about a bad one, what a floor leaves of it, whether
// a text is one over its words. It prints nothing.
#![tactic(auto)]

mod books;
mod floors;
mod forms;
mod laws;
mod texts;
mod told;

pub use books::report_on;
pub use floors::report_above;
pub use texts::report_text;
pub use told::Untold;
