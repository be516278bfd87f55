//! Settles a link after its service.
ghost use Rattle.std.specs.Prelude.{◌≡◌, count_by, Any, MatchBool, IfOk, IfErr};
ghost use Rattle.share_model.specs.lists.Each.{Each};
ghost use Rattle.share_ingress.specs.Gathers.{RefusesToGather};
ghost use Rattle.share_journal.specs.Arrivals.{arrivals};
ghost use Rattle.std.specs.Prelude.{◌≢◌, ◌++◌, ◌↔◌, List, IsTrue, MatchOption};
ghost use Rattle.share_locked.specs.Receipts.{Agrees, Disagrees, receipt_in, list_of, commands_in, has_clerk};
ghost use Rattle.share_locked.specs.Receipts.{is_command};
ghost use Rattle.share_locked.specs.Receipts.{is_arrival, receipts_in};
ghost use Rattle.share_locked.specs.declared.clerk.Receipt.{Receipt};
ghost use Rattle.share_locked.specs.Settles.{is_unsent, AreAgreed, AreClerks, ClerkIsMissing, Disagreed, IsJoined};
ghost use Rattle.share_locked.specs.Settles.{IsAccounted};
ghost use Rattle.share_locked.specs.Settles.{IsSettled, Unsettles, why_of};

use super::Locked;
use crate::clerk::{Clerk, Receipt, receipt_of};
use crate::link::LinkBrand;
use share_base::{Command, Event, Outcome, Reply};
use share_ingress::{IngressEnd, Ungathered, WhyNot};
use share_journal::{Entry, Recorder, Source, audits_replay};
use share_model::{Rates, TellingWriter};
use std::alloc::Global;

/// Why a link was not settled.
#[derive(Clone, Copy, Debug, PartialEq, Eq)]
pub enum WhyUnsettled {
    /// There is a frame to send, the link is not broken, and its life is not spent.
    Unsent,
    /// An end or a clerk is missing, or the receipts of the clerks are not the commands of the journal.
    Mismatch,
    /// An end has queued more than was taken of its worker.
    LeftOver,
    /// Memory was refused.
    NoMemory,
}

/// A settled link. It has its recorder, and the number of offers taken of each worker, in the order of the workers.
/// Then come the numbers of the journal's arrivals, refused ones too, and of its commands.
#[derive(Drop)]
pub struct Settled<W: TellingWriter, S: Rates> {
    pub recorder: Recorder<W, S>,
    pub tallies: Vec<u64>,
    pub arrivals: u64,
    pub commands: u64,
}

/// A link that was not settled, with its ends and its clerks, all as they were, and why.
#[derive(Drop)]
pub struct Unsettled<W: TellingWriter, S: Rates, L: LinkBrand> {
    pub locked: Locked<W, S, L>,
    pub ends: Vec<IngressEnd>,
    pub clerks: Vec<Clerk<L>>,
    pub why: WhyUnsettled,
}

/// Settles a link with all its ends and clerks. Errors, in the order of the tests, after which all comes back as it
/// was:
///
/// - `Unsent`: there is a frame to send, the link is not broken, and its life is not spent;
/// - `Mismatch`: an end or a clerk is missing, or the receipts of the clerks are not the commands of the journal;
/// - `LeftOver`: an end has queued more than was taken of its worker;
/// - `NoMemory`.
///
/// All that the end of each worker queued came to a settled link, once and in order. The audit of its journal is run as
/// a script in a life that is not shorter. It gives the bytes that the writer reports, if no line of the output is
/// `no 1 NoMemory`.
pub fn settle<W: TellingWriter, S: Rates, L: LinkBrand>(
    alloc: Global,
    locked: Locked<W, S, L>,
    ends: Vec<IngressEnd>,
    clerks: Vec<Clerk<L>>,
) -> Result<Settled<W, S>, Unsettled<W, S, L>>
    requires { Each (λ e. e.link ≡ L.link) ends.items }
    ensures ok { IfOk result (λ s.
        IsSettled locked ends.items clerks.items s.recorder s.tallies.items s.arrivals s.commands) }
    ensures accounts { IfOk result (λ s. IsAccounted W.told s.recorder ends.items) }
    ensures back { IfErr result (λ u. (u.locked ≡ locked)
        × (u.ends.items ≡ ends.items)
        × (u.clerks.items ≡ clerks.items)
        × Unsettles u.why locked ends.items clerks.items) }
{
    if locked.is_unsent() {
        return Err(Unsettled {
            locked,
            ends,
            clerks,
            why: WhyUnsettled::Unsent,
        });
    }
    if !locked.agrees(clerks.as_slice()) {
        return Err(Unsettled {
            locked,
            ends,
            clerks,
            why: WhyUnsettled::Mismatch,
        });
    }
    match locked.join(alloc, ends) {
        Ok(settled) => Ok(settled),
        Err((locked, ends, why)) => Err(Unsettled {
            locked,
            ends,
            clerks,
            why: why_of(why),
        }),
    }
}

// Why a link is not settled, if this is why its ends were not joined.
fn why_of(why: WhyNot) -> WhyUnsettled
    ensures { result ≡ why_of why }
{
    match why {
        WhyNot::Mismatch => WhyUnsettled::Mismatch,
        WhyNot::LeftOver => WhyUnsettled::LeftOver,
        WhyNot::NoMemory => WhyUnsettled::NoMemory,
    }
}

// A link that was not joined with its ends, and why.
type Unjoined<W, S, L> = (Locked<W, S, L>, Vec<IngressEnd>, WhyNot);

impl<W: TellingWriter, S: Rates, L: LinkBrand> Locked<W, S, L> {
    // Whether there is a frame to send, the link is not broken and its life is not spent.
    fn is_unsent(&self) -> bool
        ensures { result ≡ is_unsent self.now.recorder.link }
    {
        let engine = self.recorder.engine();
        !engine.spent() && !engine.broken() && engine.sends()
    }

    // Whether these are all clerks, and their receipts are the commands of the journal.
    fn agrees(&self, clerks: &[Clerk<L>]) -> bool
        ensures { MatchBool result (AreAgreed self.now clerks.now) (Disagreed self.now clerks.now) }
    {
        let entries = self.recorder.journal().entries();
        if !are_there(clerks, self.clerks) {
            return false;
        }
        if !all_agree(entries, clerks) {
            return false;
        }
        are_all(commands_in(entries), clerks)
    }

    // Joins the ends to the intake, and drops both.
    fn join(self, alloc: Global, ends: Vec<IngressEnd>) -> Result<Settled<W, S>, Unjoined<W, S, L>>
        requires { Each (λ e. e.link ≡ L.link) ends.items }
        ensures ok { IfOk result (λ s.
            IsJoined self ends.items s.recorder s.tallies.items s.arrivals s.commands) }
        ensures accounts { IfOk result (λ s. IsAccounted W.told s.recorder ends.items) }
        ensures back { IfErr result (λ u. (u.0 ≡ self)
            × (u.1.items ≡ ends.items)
            × RefusesToGather u.2 self.intake ends.items) }
    {
        let Locked {
            recorder,
            intake,
            clerks,
            of,
        } = self;
        match intake.gather(alloc, ends) {
            Ok((intake, tallies)) => {
                drop(intake);
                // A law: its contract says what the audit gives.
                audits_replay(&recorder);
                let arrivals = arrivals_in(recorder.journal().entries());
                let commands = commands_in(recorder.journal().entries());
                Ok(Settled {
                    recorder,
                    tallies,
                    arrivals,
                    commands,
                })
            }
            Err(Ungathered { why, intake, ends }) => Err((
                Locked {
                    recorder,
                    intake,
                    clerks,
                    of,
                },
                ends,
                why,
            )),
        }
    }
}

// Whether the clerks with the numbers 1 to `count` are among these.
fn are_there<L: LinkBrand>(clerks: &[Clerk<L>], count: u64) -> bool
    ensures { MatchBool result (AreClerks count clerks.now) (ClerkIsMissing count clerks.now) }
{
    for made in 0..count {
        if !is_there(clerks, made + 1) {
            return false;
        }
    }
    true
}

// Whether one of the clerks has this number.
fn is_there<L: LinkBrand>(clerks: &[Clerk<L>], number: u64) -> bool
    ensures { result ≡ has_clerk number clerks.now }
{
    clerks.iter().any(|clerk| clerk.number() == number)
}

// Whether the receipts of each clerk are its commands among these entries.
fn all_agree<L: LinkBrand>(entries: &[Entry], clerks: &[Clerk<L>]) -> bool
    ensures { MatchBool result (Each (Agrees entries.now) clerks.now) (Any (Disagrees entries.now) clerks.now) }
{
    for clerk in clerks {
        if !agrees(entries, clerk) {
            return false;
        }
    }
    true
}

// Whether the receipts of a clerk are its commands among these entries.
fn agrees<L: LinkBrand>(entries: &[Entry], clerk: &Clerk<L>) -> bool
    ensures { MatchBool result (Agrees entries.now clerk.now) (Disagrees entries.now clerk.now) }
{
    let mut left = clerk.receipts();
    let mut rest = entries;
    let mut number = 0;
    while let Some((entry, after)) = rest.split_first() {
        number += 1;
        match after_entry(clerk.number(), number, entry, left) {
            Some(fewer) => left = fewer,
            None => return false,
        }
        rest = after;
    }
    left.is_empty()
}

// The receipts that are left after an entry: all but the first if the entry is a command of this clerk, otherwise all.
// `None` if the first is not the receipt of that command.
fn after_entry<'a>(
    clerk: u64,
    number: u64,
    entry: &Entry,
    receipts: &'a [Receipt],
) -> Option<&'a [Receipt]>
    ensures { MatchOption result
        ((rest : List Receipt) → receipts.now ≢ receipt_in clerk number entry.now ++ rest)
        (λ rest. receipts.now ≡ receipt_in clerk number entry.now ++ rest.now) }
{
    let Some(due) = due(clerk, number, entry) else {
        return Some(receipts);
    };
    let (first, rest) = receipts.split_first()?;
    if is_same(first, &due) {
        Some(rest)
    } else {
        None
    }
}

fn is_same(one: &Receipt, other: &Receipt) -> bool
    ensures { IsTrue result ↔ (one.now ≡ other.now) }
{
    one.number == other.number
        && is_same_command(&one.command, &other.command)
        && is_same_reply(&one.reply, &other.reply)
}

// The derived `==` does not show a contract that the commands are the same.
fn is_same_command(one: &Command, other: &Command) -> bool
    ensures { IsTrue result ↔ (one.now ≡ other.now) }
{
    match one {
        Command::MakeCurrency(name) => matches!(other, Command::MakeCurrency(b) if b == name),
        Command::RemoveCurrency(name) => matches!(other, Command::RemoveCurrency(b) if b == name),
        Command::MakeTicket { amount, currency } => {
            matches!(other, Command::MakeTicket { amount: a, currency: b } if a == amount && b == currency)
        }
        Command::RemoveTicket(ticket) => matches!(other, Command::RemoveTicket(a) if a == ticket),
        Command::FundCurrency { ticket, currency } => {
            matches!(other, Command::FundCurrency { ticket: a, currency: b } if a == ticket && b == currency)
        }
        Command::FundFlow { ticket, flow } => {
            matches!(other, Command::FundFlow { ticket: a, flow: b } if a == ticket && b == flow)
        }
        Command::Unfund(ticket) => matches!(other, Command::Unfund(a) if a == ticket),
        Command::OpenFlow {
            name,
            limit,
            tariff,
        } => {
            matches!(other, Command::OpenFlow { name: a, limit: b, tariff: c }
                if a == name && b == limit && c == tariff)
        }
        Command::CloseFlow(name) => matches!(other, Command::CloseFlow(b) if b == name),
        Command::Hold(name) => matches!(other, Command::Hold(b) if b == name),
        Command::Resume(name) => matches!(other, Command::Resume(b) if b == name),
        Command::Amend { ticket, amount } => {
            matches!(other, Command::Amend { ticket: a, amount: b } if a == ticket && b == amount)
        }
    }
}

fn is_same_reply(one: &Reply, other: &Reply) -> bool
    ensures { IsTrue result ↔ (one.now ≡ other.now) }
{
    one == other
}

// The receipt that a clerk has of an entry, if that is one of its commands.
fn due(clerk: u64, number: u64, entry: &Entry) -> Option<Receipt>
    ensures { receipt_in clerk number entry.now ≡ list_of result }
{
    match (&entry.source, &entry.event, &entry.reply) {
        (Source::Clerk(from), Event::Commanded(command), Outcome::Replied(reply))
            if *from == clerk => { Some(receipt_of(number, command, reply)) }
        _ => None,
    }
}

// Whether the clerks have together as many receipts as there are commands.
fn are_all<L: LinkBrand>(commands: u64, clerks: &[Clerk<L>]) -> bool
    ensures { IsTrue result ↔ (receipts_in clerks.now ≡ commands) }
{
    let mut left = commands;
    for clerk in clerks {
        let count = clerk.receipts().len() as u64;
        if count > left {
            return false;
        }
        left -= count;
    }
    left == 0
}

// The number of commands among entries.
fn commands_in(entries: &[Entry]) -> u64
    ensures { result ≡ commands_in entries.now }
{
    let mut count = 0;
    for entry in entries {
        if is_command(entry) {
            count += 1;
        }
    }
    count
}

fn is_command(entry: &Entry) -> bool
    ensures { result ≡ is_command entry.now }
{
    matches!(entry.event, Event::Commanded(_))
}

// The number of arrivals among entries.
fn arrivals_in(entries: &[Entry]) -> u64
    ensures { result ≡ count_by is_arrival entries.now }
{
    let mut count = 0;
    for entry in entries {
        if is_arrival(entry) {
            count += 1;
        }
    }
    count
}

fn is_arrival(entry: &Entry) -> bool
    ensures { result ≡ is_arrival entry.now }
{
    matches!(
        (&entry.source, &entry.event),
        (Source::Worker(_), Event::Arrived { .. })
    )
}
