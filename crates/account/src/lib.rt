// What a reader is told of words: their names, their degrees, which are alike. It knows no format, and prints nothing.
#![tactic(auto)]

mod degrees;
mod names;
mod words;

pub use degrees::Told;
pub use names::name;
pub use words::account;
