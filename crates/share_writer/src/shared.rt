//! The values that the thread of the loop and the two beside it share.

use crate::faults::fault_of;
use std::io;
use std::sync::Wait;
use std::sync::atomic::{AtomicBool, AtomicU64, Ordering};
use std::thread::Parker;
use std::time::Duration;

/// The seconds after which a call that failed is made again.
const RETRY_SECONDS: u64 = 1;

/// The calls of the system that a thread beside the loop shows.
#[derive(Drop)]
pub(crate) struct ThreadState {
    // The number of the fault for which its call is made again, and 0 if there is none.
    fault: AtomicU64,
    // The parker of its pause before it makes the call again.
    parker: Parker,
}

impl ThreadState {
    fn new() -> ThreadState {
        ThreadState {
            fault: AtomicU64::new(0),
            parker: Parker::new(),
        }
    }

    /// Shows a fault by its number, or 0 for none. Returns the number that was shown before.
    pub(crate) fn show(&self, number: u64) -> u64 {
        self.fault.swap(number, Ordering::SeqCst)
    }

    /// The number of the fault, and 0 if there is none.
    pub(crate) fn shown(&self) -> u64 {
        self.fault.load(Ordering::SeqCst)
    }

    /// Pauses until a call that failed is made again, or the thread is hurried.
    pub(crate) fn pause<R: Wait>(&self, rt: &R) {
        self.parker
            .park_timeout(rt, Duration::from_secs(RETRY_SECONDS));
    }

    // Ends a pause.
    fn hurry(&self) {
        self.parker.unpark();
    }
}

/// The values that the three threads share.
#[derive(Drop)]
pub(crate) struct Shared {
    // The number of bytes written, over all books.
    written: AtomicU64,
    // The number of books closed.
    closed: AtomicU64,
    is_abandoned: AtomicBool,
    // Whether a sync was asked for and is not over.
    is_syncing: AtomicBool,
    pub(crate) writer: ThreadState,
    pub(crate) filer: ThreadState,
}

impl Shared {
    pub(crate) fn new() -> Shared {
        Shared {
            written: AtomicU64::new(0),
            closed: AtomicU64::new(0),
            is_abandoned: AtomicBool::new(false),
            is_syncing: AtomicBool::new(false),
            writer: ThreadState::new(),
            filer: ThreadState::new(),
        }
    }

    pub(crate) fn written(&self) -> u64 {
        self.written.load(Ordering::SeqCst)
    }

    pub(crate) fn add_written(&self, count: u64) {
        self.written.fetch_add(count, Ordering::SeqCst);
    }

    pub(crate) fn closed(&self) -> u64 {
        self.closed.load(Ordering::SeqCst)
    }

    pub(crate) fn add_closed(&self) {
        self.closed.fetch_add(1, Ordering::SeqCst);
    }

    /// The fault of a thread beside the loop, if one has a fault.
    pub(crate) fn fault(&self) -> Option<io::Error> {
        match self.writer.shown() {
            0 => fault_of(self.filer.shown()),
            number => fault_of(number),
        }
    }

    pub(crate) fn is_abandoned(&self) -> bool {
        self.is_abandoned.load(Ordering::SeqCst)
    }

    /// Lets both threads stop before their next call of the system.
    pub(crate) fn abandon(&self) {
        self.is_abandoned.store(true, Ordering::SeqCst);
        self.writer.hurry();
        self.filer.hurry();
    }

    /// Begins a sync. Returns false if one is not over.
    pub(crate) fn begin_sync(&self) -> bool {
        !self.is_syncing.swap(true, Ordering::SeqCst)
    }

    pub(crate) fn end_sync(&self) {
        self.is_syncing.store(false, Ordering::SeqCst);
    }
}
