//! The words of `gateway`, `ask` and `bill`, what they ask for, and the texts of help.
#![tactic(auto)]

mod ask_words;
mod asked;
mod bill_words;
mod gateway_words;
mod help;
mod words;

pub use asked::{AskOrders, Asked, BillOrders, BillTariffs, GatewayOrders};
pub use words::parse;
