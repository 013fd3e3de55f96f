// Worked cases of family trees, floors and dialects. Each expected value is worked out by hand from the rules.
#![tactic(auto)]

#[cfg(test)]
mod dialects;
#[cfg(test)]
mod floors;
#[cfg(test)]
mod refusals;
#[cfg(test)]
mod trees;
