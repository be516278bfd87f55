//! The counts of the frames that came.
ghost use Rattle.std.specs.Prelude.{◌≡◌};
ghost use Rattle.share_downlink.specs.Given.{counted, no_counts};

/// The counts of the frames that came: their number, their bytes, and the number of those that had the number of no
/// tenant. Counts stay at 2^64 - 1 once they are there.
#[derive(Clone, Copy, Debug, PartialEq, Eq)]
pub struct Counts {
    pub frames: u64,
    pub bytes: u64,
    pub strangers: u64,
}

impl Counts {
    /// Nothing came.
    pub fn new() -> Counts
        ensures { result ≡ no_counts }
    {
        Counts {
            frames: 0,
            bytes: 0,
            strangers: 0,
        }
    }

    /// Counts a frame of this number of bytes. Its flow number is that of a tenant, or not.
    pub(crate) fn count(&mut self, bytes: usize, is_known: bool)
        ensures { self.new ≡ counted is_known bytes self.old }
    {
        self.frames = self.frames.saturating_add(1);
        self.bytes = self.bytes.saturating_add(bytes as u64);
        if !is_known {
            self.strangers = self.strangers.saturating_add(1);
        }
    }
}
