// Calls carried out over a book, and over a dialect over a floor over a family tree. It adds no rule of its own.
#![tactic(auto)]

mod books;
mod stack;

pub use books::replay_book;
pub use stack::replay_stack;
