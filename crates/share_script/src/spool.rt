//! Text that waits to be written.
ghost use Rattle.std.specs.Prelude.{◌≡◌, ◌<◌, ◌≤◌, ◌+◌, ◌++◌, [], length, decimal, IfOk, OnOk, MatchResult};
ghost use Rattle.share_model.specs.io.Calls.{Offers, OfferRefused};
ghost use Rattle.share_model.specs.io.Printing.{bytes_told};
ghost use Rattle.share_script.specs.Printing.{Spooled, SpooledPart};

use itoa::Buffer;
use share_model::{Fault, TellingWriter, put};
use share_text::{MAX_ANSWER, MAX_DIGITS, Text};
use std::alloc::{AllocError, Global};
use std::marker::Model;

/// The most bytes that wait.
pub(crate) const SPOOL: usize = 65536;

/// Answers that are put together in one buffer and written together. A contract sees them as their bytes.
#[derive(Drop)]
pub struct Spool {
    bytes: Vec<u8>,
}

impl Model for Spool {
    ghost use Rattle.std.specs.Prelude.{ℕ, List, length, ◌≤◌, vec_capacity};
    ghost use Rattle.share_script.specs.declared.spool.TheConstants.{SPOOL};

    ghost Value = { List ℕ };

    ghost view = { λ spool. spool.bytes.items };

    ghost invariant = { λ spool. SPOOL ≤ vec_capacity spool.bytes };
}

impl Spool {
    /// A spool in which nothing waits, with room for 65536 bytes.
    pub fn new(alloc: Global) -> Result<Spool, AllocError>
        ensures { IfOk result (λ spool. spool ≡ []) }
    {
        Ok(Spool {
            bytes: Vec::with_capacity(alloc, SPOOL)?,
        })
    }

    #[tactic(auto, using(std::proofs::lemmas::Fmt::decimal_digit))]
    fn push_digit(&mut self, number: u8)
        requires one { number < 10 }
        requires room { length self.old < SPOOL }
        ensures bytes { self.new ≡ self.old ++ decimal number }
        ensures few { length self.new ≤ length self.old + 1 }
    {
        self.bytes.push_reserved(b'0' + number);
    }

    fn push_two_digits(&mut self, number: u8)
        requires two { (10 ≤ number) × (number < 100) }
        requires room { length self.old + MAX_DIGITS ≤ SPOOL }
        ensures bytes { self.new ≡ self.old ++ decimal number }
        ensures few { length self.new ≤ length self.old + MAX_DIGITS }
    {
        self.push_digit(number / 10);
        self.push_digit(number % 10);
    }

    fn push_digits(&mut self, number: u64)
        requires { length self.old + MAX_DIGITS ≤ SPOOL }
        ensures bytes { self.new ≡ self.old ++ decimal number }
        ensures few { length self.new ≤ length self.old + MAX_DIGITS }
    {
        let mut digits = Buffer::new();
        self.push_str(digits.format(number));
    }

    /// Writes what waits, if there is too little room left for one more answer.
    pub fn make_room<O: TellingWriter>(&mut self, output: &mut O) -> Result<(), Fault>
        ensures spooled { MatchResult result
            (λ _. Spooled (bytes_told (O.told output.old)) self.old (bytes_told (O.told output.new))
            self.new [])
            (λ _. SpooledPart (bytes_told (O.told output.old)) self.old
            (bytes_told (O.told output.new)) []) }
        ensures room { OnOk result (length self.new + MAX_ANSWER ≤ SPOOL) }
        ensures offers { MatchResult result (λ _. Offers O.answers output.old output.new)
            (λ _. OfferRefused O.answers output.old output.new) }
    {
        if self.bytes.len() + MAX_ANSWER <= SPOOL {
            return Ok(());
        }
        self.put_out(output)
    }

    /// Writes what waits. If an offer is refused, a beginning of it was written.
    pub fn put_out<O: TellingWriter>(&mut self, output: &mut O) -> Result<(), Fault>
        ensures spooled { MatchResult result
            (λ _. Spooled (bytes_told (O.told output.old)) self.old (bytes_told (O.told output.new))
            [] [])
            (λ _. SpooledPart (bytes_told (O.told output.old)) self.old
            (bytes_told (O.told output.new)) []) }
        ensures none { OnOk result (self.new ≡ []) }
        ensures offers { MatchResult result (λ _. Offers O.answers output.old output.new)
            (λ _. OfferRefused O.answers output.old output.new) }
    {
        put(output, self.bytes.as_slice())?;
        self.bytes.clear();
        Ok(())
    }
}

impl Text for Spool {
    ghost contents = { λ spool. spool };

    ghost room = { 65536 };

    #[inline(always)]
    fn push_str(&mut self, text: &str) {
        if self.bytes.extend_from_slice(text.as_bytes()).is_err() {
            unreachable!();
        }
    }

    #[inline(always)]
    fn push_number(&mut self, number: u64) {
        if number < 10 {
            self.push_digit(number as u8);
        } else if number < 100 {
            self.push_two_digits(number as u8);
        } else {
            self.push_digits(number);
        }
    }
}
