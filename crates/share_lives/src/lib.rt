//! The lives of a gateway's books, over plain tariffs. One is opened, the next takes over what waits in it, and the
//! rest is left at the end.
#![tactic(auto)]

mod laws;
mod life;
mod next_book;
mod next_plan;
mod remainder;
mod stage;

pub use laws::lives_lose_nothing;
pub use life::{Frame, Life, tariffs_of};
pub use next_book::NextBook;
pub use next_plan::NextPlan;
pub use remainder::{Remainder, Remainders};
