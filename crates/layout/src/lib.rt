// How a book lies in its bytes: the header, the entries of the words, the table. It knows nothing of degrees.
#![tactic(auto)]

mod causes;
mod entries;
mod form;
mod kind;
mod layout;

pub use causes::{EntryFault, FormFault};
pub use entries::spelling_in;
pub use form::check_form;
pub use kind::Kind;
pub use layout::Layout;
