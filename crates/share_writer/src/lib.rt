//! Books are written to disk beside the thread of the loop. One thread writes the text of the open book, and one
//! begins, syncs and closes books. A queue leads from the loop to both.
#![tactic(auto)]

mod attempts;
mod book_close;
mod faults;
mod filer;
mod jobs;
mod queue;
mod shared;
mod system;
mod threads;
mod writer;

pub use book_close::BookClose;
pub use queue::{DiskQueue, PAGES};
pub use system::{SystemDir, SystemFiles};
pub use threads::write_while;
