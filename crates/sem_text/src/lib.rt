//! Lines, words and numbers of a text, as bytes.
#![tactic(auto)]

mod lines;
mod numbers;

pub use lines::{line_at, word_at};
pub use numbers::{
    NumberFault, is_number, number, push_number, push_number_behind, put_number, put_number_behind,
    put_small_number,
};
