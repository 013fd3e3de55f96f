// A dialect over a floor over a family tree, over a book, over any vocabulary: the layers together. It adds no rule of its own.
#![tactic(auto)]

mod any;
mod books;
mod causes;
mod trees;

pub use any::layered_likeness;
pub use books::book_likeness;
pub use causes::StackFault;
pub use trees::tree_stack;
