//! The answers of a gateway to a browser and to a scrape of metrics. The crate has the meaning of a request's head, and
//! the bytes of each answer. Nothing is read or sent here.
#![tactic(auto)]

mod answer;
mod fields;
mod head;
mod laws;
mod page;
mod parts;
mod request;
mod target;
mod unread;

pub use answer::{answer_text, refusal_text};
pub use head::{Head, MAX_HEAD};
pub use laws::pieces_make_no_difference;
pub use page::PAGE;
pub use parts::push_three;
pub use request::{Request, asked};
pub use target::{Exposition, Refusal, Resource, Want};
