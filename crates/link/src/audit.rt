//! The audit of a service, and why it was not written.

use share_journal::Journal;
use share_server::{AuditFile, Keep};
use std::cell::Cell;
use std::fs::Files;
use std::io;
use std::io::Eprint;

/// The file of the audit, and the place where the reason is noted if it was not written: the result of a run has none.
#[derive(Drop)]
pub struct NotedAudit<'a, R: Files> {
    pub audit: AuditFile<'a, R>,
    pub fault: &'a Cell<Option<io::Error>>,
}

impl<'a, R: Files + Eprint> Keep for NotedAudit<'a, R> {
    ghost kept = { λ _ _ _. Unit {0} };

    fn keep(self, journal: &Journal) -> bool {
        let NotedAudit { audit, fault } = self;
        match audit.write(journal) {
            Ok(()) => true,
            Err(reason) => {
                fault.set(Some(reason));
                false
            }
        }
    }
}
