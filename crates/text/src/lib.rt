#![tactic(auto)]
// Writing text into a lent buffer at a place. Each function answers the place after what it wrote.
mod number;

pub use number::{put_labelled, put_labelled_signed, put_number, put_signed};
