//! The bill of books whose tariffs stand in files, and of books that are checked against the rows of `books.csv`.
#![tactic(auto)]

mod book_text;
mod books;
mod faults;
mod given_files;
mod rows_file;
mod shelf;
mod verified;

pub use shelf::print_bill_by;
pub use verified::{VerifiedBilling, print_verified_bill};
