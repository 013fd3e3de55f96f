// What a refusal says: a layer, a number and a place. It knows no layer's own causes.
#![tactic(auto)]

mod fault;
mod layer;

pub use fault::{Cause, Fault};
pub use layer::Layer;
