//! Standard streams that are closed.

use share_served::found_at;
use std::fs;
use std::fs::Files;

/// Empty files in the places of the standard streams that are closed. Without them the next file or socket would get
/// the descriptor of such a stream. A report or a fault would be written into it.
#[derive(Drop)]
pub struct StandIns<F> {
    input: Option<F>,
    output: Option<F>,
    errors: Option<F>,
}

impl<F> StandIns<F> {
    /// Opens them in the order of the descriptors, since each takes the least that is free.
    pub fn open<R: Files<File = F>>(files: &R) -> StandIns<F> {
        StandIns {
            input: in_place_of(files, "/dev/fd/0"),
            output: in_place_of(files, "/dev/fd/1"),
            errors: in_place_of(files, "/dev/fd/2"),
        }
    }
}

// An empty file that cannot be written, if the stream of this path is closed.
fn in_place_of<R: Files>(files: &R, stream: &str) -> Option<R::File> {
    match found_at(files, stream) {
        Ok(None) => fs::open(files, "/dev/null").ok(),
        _ => None,
    }
}
