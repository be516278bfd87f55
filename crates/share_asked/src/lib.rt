//! The orders of the command line. They are runs of scripts and bills over the program's tariffs, texts of help, and
//! faults, with their exit statuses.
#![tactic(auto)]

mod bills;
mod scripts;
mod tariffs;
mod texts;
mod words;

pub use bills::bill_given;
pub use scripts::run_on_standard;
pub use tariffs::PlainTariffs;
pub use texts::show;
pub use words::{fail, given_words, not_here};
