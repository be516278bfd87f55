//! The outcome of the texts of books. The bill of a text is that of the run that wrote it, and a whole text makes the
//! run again.
#![tactic(auto)]

mod laws;

pub use laws::{bill_matches_book, bills_match_books, whole_texts_replay};
