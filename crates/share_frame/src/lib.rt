//! The grammar of frames of both versions, both ways: the header of a frame, and what bytes begin with.
#![tactic(auto)]

mod laws;
mod reading;
mod writing;

pub use laws::no_frame_begins_another;
pub use reading::{Field, FrameRead, FrameRead2, read_frame, read_frame2};
pub use writing::{HEADER, HEADER2, header, header2};
