//! A reader whose records come one by one.

use share_model::{Got, TellingReader};
use std::sync::Arc;
use std::sync::atomic::{AtomicU64, Ordering};

/// A record for the flow a, with the payload `b`.
pub const RECORD: [u8; 5] = *b"\x01a\x00\x01b";

/// The most times that a reader looks at a word.
const LOOKS: u64 = 1000000000;

/// Gives two records, one a read. Before the second it waits until a word is set, and fails if it never is.
#[derive(Drop)]
pub struct TwoRecords {
    /// The number of reads made.
    pub reads: u64,
    pub word: Arc<AtomicU64>,
}

fn is_set(word: &AtomicU64) -> bool {
    for _look in 0..LOOKS {
        if word.load(Ordering::SeqCst) != 0 {
            return true;
        }
    }
    false
}

impl TellingReader for TwoRecords {
    ghost use Rattle.std.specs.Prelude.{None};
    ghost use Rattle.share_model.specs.io.Given.{Gives};

    ghost left = { λ _. None };

    ghost gives = { λ _ buffer got _. Gives None buffer got None };

    ghost tells = { λ before buffer got after given. given };

    fn take_bytes(&mut self, buffer: &mut [u8]) -> Got {
        self.reads = self.reads.saturating_add(1);
        if self.reads > 2 {
            return Got::End;
        }
        if buffer.len() < 5 || self.reads == 2 && !is_set(&self.word) {
            return Got::Failed;
        }
        buffer[..5].copy_from_slice(&RECORD);
        Got::Bytes(5)
    }
}
