//! The words of the command line, what they ask for, and the texts of help.
#![tactic(auto)]

mod asked;
mod bill_words;
mod help;
mod words;

pub use asked::{Asked, BillOrders, Orders, ServeOrders};
pub use share_billing::Shown;
pub use words::parse;
