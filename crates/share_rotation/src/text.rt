//! The text of the open book on its way to the disk.

use crate::books::Books;
use crate::moments::is_past;
use std::io;
use std::sync::Wait;
use std::time::{Duration, Instant};

/// The number of pages of text given to the disk in a round.
const PAGES: u32 = 16;

/// The seconds after which written text is made durable.
const SYNC_SECONDS: u64 = 1;

impl Books {
    /// Gives text to the disk, as long as there are pages for it, and learns the part of it that is written.
    pub fn write_text<R: Wait>(&mut self, rt: &R, now: Instant) {
        for _ in 0..PAGES {
            if !self.life.has_text() || !self.give_page(rt) {
                break;
            }
        }
        self.transit.written(self.queue.written());
        self.is_stalled = self.queue.fault().is_some();
        self.note_sync(rt, now);
    }

    // Fills a page and gives it to the disk. Returns false if all pages are on their way.
    fn give_page<R: Wait>(&mut self, rt: &R) -> bool {
        let Some(page) = self.queue.page(rt) else {
            return false;
        };
        let mut page = page;
        self.life.hand(&mut self.transit, &mut page);
        if page.as_slice().is_empty() {
            self.queue.put_back(page);
            return false;
        }
        self.queue.write(rt, page);
        true
    }

    // Has what is written made durable, a second after the first byte of it was.
    fn note_sync<R: Wait>(&mut self, rt: &R, now: Instant) {
        if self.sync_at.is_none() {
            if self.queue.has_unsynced() {
                self.sync_at = now.checked_add(Duration::from_secs(SYNC_SECONDS));
            }
        } else if is_past(self.sync_at, now) {
            self.sync_at = None;
            let _ = self.queue.sync(rt);
        }
    }

    /// The number of bytes of text that were not written.
    pub fn unwritten(&self) -> u64 {
        self.transit.unwritten()
    }

    /// Why the disk fails, if it does.
    pub fn disk_fault(&self) -> Option<io::Error> {
        self.queue.fault()
    }

    /// Whether the disk fails: then no event is made.
    pub fn is_stalled(&self) -> bool {
        self.is_stalled
    }
}
