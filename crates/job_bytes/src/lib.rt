// The numbers in a job's bytes, its trailer and its rows, of either version: read into lists, and written from lists.
#![tactic(auto)]

mod columns;
mod lists;
mod number;
mod put_parts;
mod put_rows;
mod trailer;
mod version;

pub use columns::{Entry, read_column};
pub use lists::Lists;
pub use number::number_at;
pub use put_parts::{put_job, put_plain};
pub use trailer::Trailer;
pub use version::Version;
