//! A standard error and a clock for tests.

use std::alloc::Global;
use std::cell::{Cell, RefCell};
use std::fmt::Display;
use std::io;
use std::io::{Eprint, Error, ErrorKind};
use std::time::{Clock, Duration};

/// The printed lines, in the second that the test sets. Printing fails if the test says so.
#[derive(Drop)]
pub(super) struct Recorder {
    printed: RefCell<String>,
    second: Cell<Option<u64>>,
    fails: bool,
}

impl Recorder {
    /// Nothing is printed yet. The clock fails.
    pub(super) fn new(alloc: Global, fails: bool) -> Recorder {
        Recorder {
            printed: RefCell::new(String::new(alloc)),
            second: Cell::new(None),
            fails,
        }
    }

    /// Sets the clock, to seconds since 1970.
    pub(super) fn set(&self, second: u64) {
        self.second.set(Some(second));
    }

    /// The printed lines.
    pub(super) fn printed(self) -> String {
        let Recorder {
            printed,
            second: _,
            fails: _,
        } = self;
        printed.into_inner()
    }
}

fn failure() -> Error {
    Error::from(ErrorKind::BrokenPipe)
}

impl Eprint for Recorder {
    fn eprint<D: Display + Drop>(&self, value: D) -> io::Result<()> {
        if self.fails {
            return Err(failure());
        }
        let Ok(mut printed) = self.printed.try_borrow_mut() else {
            return Err(failure());
        };
        match write!(printed, "{value}") {
            Ok(()) => Ok(()),
            Err(_) => Err(failure()),
        }
    }

    fn eprintln<D: Display + Drop>(&self, _value: D) -> io::Result<()> {
        Err(failure())
    }
}

impl Clock for Recorder {
    fn monotonic(&self) -> io::Result<Duration> {
        Err(failure())
    }

    fn since_1970(&self) -> io::Result<Duration> {
        match self.second.get() {
            Some(second) => Ok(Duration::from_secs(second)),
            None => Err(failure()),
        }
    }
}
