//! The bill of books in files: each is read and run again, and what their tenants sent is printed.
#![tactic(auto)]

mod billing;
mod book_file;
mod faults;
mod printing;

pub use billing::{Billing, NotShown, print_bill};
pub use faults::{CutLine, Shown};
pub use printing::{Form, shown};
