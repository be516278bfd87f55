//! The thread that makes books durable, and closes them.

use crate::attempts::Attempts;
use crate::book_close::{BookClose, end_of};
use crate::jobs::FilerJob;
use crossbeam_channel::Receiver;
use share_catalog::Digest;
use share_disk::{Folder, OpenText};
use std::alloc::Global;
use std::fs::{File, Files};
use std::io;
use std::sync::Wait;

/// The thread that makes books durable, and closes them.
#[derive(Drop)]
pub(crate) struct Filer<'s> {
    pub(crate) alloc: Global,
    pub(crate) folder: &'s Folder,
    pub(crate) attempts: Attempts<'s>,
    pub(crate) jobs: Receiver<FilerJob>,
}

impl<'s> Filer<'s> {
    /// Does jobs until it is to stop.
    pub(crate) fn run<R: Files<File = File> + Wait>(self, rt: &R) {
        for _ in rt.forever() {
            if !self.take(rt) {
                break;
            }
        }
    }

    // Does the next job. Returns false if it is to stop.
    fn take<R: Files<File = File> + Wait>(&self, rt: &R) -> bool {
        if self.attempts.is_abandoned() {
            return false;
        }
        match self.jobs.recv(rt) {
            Ok(job) => self.work(rt, job),
            Err(_) => false,
        }
    }

    // Does a job. Returns false if it is to stop.
    fn work<R: Files<File = File> + Wait>(&self, rt: &R, job: FilerJob) -> bool {
        match job {
            FilerJob::Keep { number } => self.keep(rt, number),
            FilerJob::Sync(file) => self.sync(rt, file),
            FilerJob::Close { text, close } => self.close(rt, text, close),
            FilerJob::Stop => false,
        }
    }

    // Makes the names and the tariffs of a book durable.
    fn keep<R: Files<File = File> + Wait>(&self, rt: &R, number: u64) -> bool {
        self.attempts
            .until_done(rt, || self.folder.keep_begun(rt, self.alloc, number))
            .is_some()
    }

    fn sync<R: Wait>(&self, rt: &R, file: File) -> bool {
        let synced = self.attempts.until_done(rt, || file.sync_data());
        self.attempts.shared.end_sync();
        synced.is_some()
    }

    fn close<R: Files<File = File> + Wait>(
        &self,
        rt: &R,
        text: OpenText,
        close: BookClose,
    ) -> bool {
        let digest = self.attempts.until_done(rt, || digest_of(&text));
        match digest {
            Some(digest) => self.close_with(rt, &text, digest, close),
            None => false,
        }
    }

    // Closes a book whose text has this digest.
    fn close_with<R: Files<File = File> + Wait>(
        &self,
        rt: &R,
        text: &OpenText,
        digest: Digest,
        close: BookClose,
    ) -> bool {
        let end = end_of(text.number(), digest, close);
        let closed = self
            .attempts
            .until_done(rt, || self.folder.close(rt, self.alloc, text, &end));
        if closed.is_none() {
            return false;
        }
        self.attempts.shared.add_closed();
        self.attempts.wake();
        true
    }
}

// The digest of a text.
fn digest_of(text: &OpenText) -> io::Result<Digest> {
    Ok(text.digest()?)
}
