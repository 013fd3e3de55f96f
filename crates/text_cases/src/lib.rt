// Tables of texts with the verdict on each, places worked out by hand. It is no part of the product.
#![tactic(auto)]

mod letters;
#[cfg(test)]
mod sizes;
#[cfg(test)]
mod tables;
