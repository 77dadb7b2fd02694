#![tactic(auto)]
// Test cases as lines of text: reading a line's fields, numbers and lists, and printing answers.
pub mod field;
pub mod hex;
pub mod list;
pub mod number;
pub mod print;
pub mod rest;
pub mod scan;
