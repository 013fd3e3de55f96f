// One list of values in fixed memory, and how many words there may be. It knows nothing of what the values mean.
#![tactic(auto)]

mod count;
mod list;
mod methods;

pub use count::fits;
pub use list::List;
