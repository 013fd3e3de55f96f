// Family trees, over any scale: words alike through their common ancestors. It knows no text and no format.
#![tactic(auto)]

mod causes;
mod checks;
mod table;
mod tree;
mod word;

pub use causes::{Flaw, TreeFault};
pub use checks::check_tree;
pub use tree::Tree;
