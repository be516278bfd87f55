//! A list of counts that takes little memory.
ghost use Rattle.std.specs.Prelude.{◌≡◌, [], ◌∷◌, ◌++◌, IfOk, OnOk, OnErr, nat_eq};
ghost use Rattle.std.specs.List.{prefix_len};

use std::alloc::{AllocError, Global};
use std::marker::Model;

/// Counts in the order in which they were pushed. A count n takes n / 255 + 1 bytes: no more than it counts, and one
/// byte for a count of 0.
#[derive(Drop)]
pub(crate) struct CodedCounts {
    bytes: Vec<u8>,
}

impl Model for CodedCounts {
    ghost use Rattle.std.specs.Prelude.{◌<◌, ◌^◌, ℕ, List};
    ghost use Rattle.share_model.specs.io.Counts.{counts_in};
    ghost use Rattle.share_model.specs.lists.Each.{Each};

    ghost Value = { List ℕ };

    ghost view = { λ counts. counts_in counts.bytes.items };

    ghost invariant = { λ counts. Each (λ k. k < 2 ^ 64) (counts_in counts.bytes.items) };
}

// The number of bytes of 255 in front.
fn full_bytes(bytes: &[u8]) -> usize
    ensures { result ≡ prefix_len (λ byte. nat_eq byte 255) bytes.now }
{
    bytes.iter().take_while(|byte| **byte == 255).count()
}

impl CodedCounts {
    /// No counts. They take no memory.
    pub(crate) fn new(alloc: Global) -> CodedCounts
        ensures { result ≡ [] }
    {
        CodedCounts {
            bytes: Vec::new(alloc),
        }
    }

    /// Puts a count after the others. An error if memory is refused: then nothing changed.
    pub(crate) fn push(&mut self, count: usize) -> Result<(), AllocError>
        ensures ok { OnOk result (self.new ≡ self.old ++ count ∷ []) }
        ensures err { OnErr result (self.new ≡ self.old) }
    {
        let full = count / 255;
        self.bytes.reserve(full + 1)?;
        self.bytes.push_reserved((count % 255) as u8);
        self.bytes.resize(self.bytes.len() + full, 255)
    }

    /// The counts. An error if memory is refused.
    pub(crate) fn to_vec(&self, alloc: Global) -> Result<Vec<usize>, AllocError>
        ensures { IfOk result (λ counts. counts.items ≡ self.now) }
    {
        let mut counts = Vec::new(alloc);
        let mut rest = self.bytes.as_slice();
        while let Some((first, after)) = rest.split_first() {
            if *first != 255 {
                counts.push(usize::from(*first) + 255 * full_bytes(after))?;
            }
            rest = after;
        }
        Ok(counts)
    }
}
