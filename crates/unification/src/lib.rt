// Terms, sheets of equations and what a best match is: definitions, and the theorems about them. It knows no code that solves a sheet.
#![tactic(auto)]

mod eight_words;
mod theorems;

pub use eight_words::{eight_words_match, worked_examples_hold};
pub use theorems::{
    classes_have_degrees, crisp_words_unify, equations_are_possible, order_is_free,
    sheets_are_possible, sheets_have_degrees, solutions_are_best, terms_are_put, terms_are_similar,
};
