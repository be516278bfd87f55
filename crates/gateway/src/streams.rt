//! Standard streams that are closed.

use std::fs;
use std::fs::Files;

/// Empty files in the places of the standard streams that are closed. Without them a book or a socket would get the
/// descriptor of such a stream, and messages would be written into it.
#[derive(Drop)]
pub(crate) struct StandIns<F> {
    input: Option<F>,
    output: Option<F>,
    errors: Option<F>,
}

impl<F> StandIns<F> {
    /// Opens them in the order of the descriptors, since each takes the least that is free.
    pub(crate) fn open<R: Files<File = F>>(files: &R) -> StandIns<F> {
        StandIns {
            input: in_place_of(files, "/dev/fd/0"),
            output: in_place_of(files, "/dev/fd/1"),
            errors: in_place_of(files, "/dev/fd/2"),
        }
    }
}

// An empty file that cannot be written, if the stream of this path is closed.
fn in_place_of<R: Files>(files: &R, stream: &str) -> Option<R::File> {
    match fs::symlink_metadata(files, stream) {
        Ok(_) => None,
        Err(_) => fs::open(files, "/dev/null").ok(),
    }
}
