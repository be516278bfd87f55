//! The way from a book to the disk and to the wire: text before wire. A frame may go to the wire only if the disk has
//! written the text of its turn.
#![tactic(auto)]

mod laws;
mod page;
mod transit;

pub use laws::frames_follow_their_text;
pub use page::{PAGE, Page};
pub use transit::Transit;
