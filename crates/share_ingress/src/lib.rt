//! The ingress side of a link: readers of records, the queue from the workers to the link, and the workers.
#![tactic(auto)]

mod counted;
mod ends;
mod handing;
mod laws;
mod protocol;
mod reader;
mod record;
mod threads;
mod workers;

pub use ends::{IngressEnd, Intake, Offered, Ungathered, WhyNot, queue};
pub use laws::streams_have_one_reading;
pub use reader::{IngressReader, Next};
pub use record::{FRAMING, Found, first_record};
pub use share_model::{Ended, Offer};
pub use threads::{Job, run_workers};
pub use workers::{Done, Gate, Why, run_worker};
