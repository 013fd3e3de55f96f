// Tables of lines with what each asks for, and of answers with their lines, worked out by hand. It is no part of the product.
#![tactic(auto)]

#[cfg(test)]
mod answers;
#[cfg(test)]
mod lines;
