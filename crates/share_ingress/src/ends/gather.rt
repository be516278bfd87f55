//! Joins all ends of a queue to its intake.
ghost use Rattle.std.specs.Prelude.{◌≡◌, ◌∷◌, ℕ, true, length, sum, Any, IfOk, IfErr, MatchBool, MatchResult};
ghost use Rattle.share_model.specs.ingress.Queue.{of_worker, has};
ghost use Rattle.share_model.specs.lists.Each.{Each};
ghost use Rattle.share_ingress.specs.Gathers.{AllThere, Gathered, HasLeft, IsMissing, IsTaken, IsWhole};
ghost use Rattle.share_ingress.specs.Gathers.{RefusesToGather};
ghost use Rattle.share_ingress.specs.Gathers.{has_end, tallies_of};

use super::{IngressEnd, Intake};
use crate::protocol::{Closes, InOrder};
use std::alloc::{AllocError, Global};

/// Why the ends were not joined to the intake.
#[derive(Clone, Copy, Debug, PartialEq, Eq)]
pub enum WhyNot {
    /// The end of a worker is missing.
    Mismatch,
    /// An end has queued more than was popped of its worker.
    LeftOver,
    /// Memory for the tallies was refused.
    NoMemory,
}

/// The intake and the ends that were not joined, as they were, and why.
#[derive(Drop)]
pub struct Ungathered {
    pub why: WhyNot,
    pub intake: Intake,
    pub ends: Vec<IngressEnd>,
}

impl Intake {
    /// Joins all ends of this queue to the intake. Returns the number of offers popped of each worker, in the order of
    /// the workers: all that its end queued. Afterwards each worker is closed, and no more offers can be taken. Errors,
    /// in the order of the tests: `Mismatch` if an end is missing, `LeftOver` if one queued more than was popped of its
    /// worker, `NoMemory`. Then intake and ends come back as they were.
    pub fn gather(
        self,
        alloc: Global,
        ends: Vec<IngressEnd>,
    ) -> Result<(Intake, Vec<u64>), Ungathered>
        requires { Each (λ e. e.link ≡ self.link) ends.items }
        ensures ok { IfOk result (λ made. Gathered self ends.items made.0 made.1.items) }
        ensures back { IfErr result (λ back. (back.intake ≡ self) × (back.ends.items ≡ ends.items)
            × RefusesToGather back.why self ends.items) }
    {
        if let Err(why) = self.are_ready(ends.as_slice()) {
            return Err(Ungathered {
                why,
                intake: self,
                ends,
            });
        }
        let Ok(tallies) = self.tallies(alloc) else {
            return Err(Ungathered {
                why: WhyNot::NoMemory,
                intake: self,
                ends,
            });
        };
        Ok((self.close_all(ends), tallies))
    }

    // An error if an end is missing, or has queued more than was popped of its worker.
    fn are_ready(&self, ends: &[IngressEnd]) -> Result<(), WhyNot>
        ensures { MatchResult result
            (λ _. AllThere self.now.workers ends.now × Each (IsTaken self.now.popped) ends.now)
            (λ why. RefusesToGather why self.now ends.now) }
    {
        if !self.are_there(ends) {
            return Err(WhyNot::Mismatch);
        }
        if !self.are_taken(ends) {
            return Err(WhyNot::LeftOver);
        }
        Ok(())
    }

    // Whether the ends of all workers are among these.
    fn are_there(&self, ends: &[IngressEnd]) -> bool
        ensures { MatchBool result (AllThere self.now.workers ends.now) (IsMissing self.now.workers ends.now) }
    {
        for worker in 0..self.workers {
            if !is_there(ends, worker + 1) {
                return false;
            }
        }
        true
    }

    // Whether no end has queued more than was popped of its worker.
    fn are_taken(&self, ends: &[IngressEnd]) -> bool
        ensures { MatchBool result (Each (IsTaken self.now.popped) ends.now) (Any (HasLeft self.now.popped) ends.now) }
    {
        for end in ends {
            if end.queued() > self.count(end.worker) {
                return false;
            }
        }
        true
    }

    // The number of offers popped of a worker.
    fn count(&self, worker: u64) -> u64
        ensures { result ≡ length (of_worker worker self.now.popped) }
    {
        if worker > self.workers {
            return 0;
        }
        if worker == 0 {
            return 0;
        }
        self.counts[(worker - 1) as usize]
    }

    // The number of offers popped of each worker.
    fn tallies(&self, alloc: Global) -> Result<Vec<u64>, AllocError>
        ensures items { IfOk result (λ t. t.items ≡ tallies_of self.now.workers self.now.popped) }
        ensures total { IfOk result (λ t. sum t.items ≡ length self.now.popped) }
    {
        self.counts[..self.workers as usize].to_vec(alloc)
    }

    // Joins ends of this queue, all of whose offers were popped.
    fn close_all(self, ends: Vec<IngressEnd>) -> Intake
        requires link { Each (λ e. e.link ≡ self.link) ends.items }
        requires taken { Each (IsTaken self.popped) ends.items }
        ensures same { result ≡ record self { closed = result.closed } }
        ensures closed { (w : ℕ) → has_end w ends.items ≡ true → has w result.closed ≡ true }
        ensures whole { Each (IsWhole self.popped) ends.items }
    {
        let mut intake = self;
        let mut ends = ends;
        while let Some(end) = ends.pop() {
            intake.close(end);
        }
        intake
    }

    // Joins an end of this queue, all of whose offers were popped.
    fn close(&mut self, end: IngressEnd)
        requires link { end.link ≡ self.old.link }
        requires taken { IsTaken self.old.popped end }
        ensures same { self.new ≡ record self.old { closed = end.worker ∷ self.old.closed } }
        ensures whole { IsWhole self.old.popped end }
    {
        let end = self.compare(end);
        let IngressEnd { token, .. } = end;
        self.token.absorb::<InOrder, Closes>(&self.queue, token);
    }
}

// Whether one of the ends is that of a worker.
fn is_there(ends: &[IngressEnd], worker: u64) -> bool
    ensures { result ≡ has_end worker ends.now }
{
    ends.iter().any(|end| end.worker == worker)
}
