//! Commands: each is one event, or none if memory was refused. By a law of the ledger (`leaves_tickets`) those that
//! make or remove currencies and tickets change the tickets of no flow, so they level none.
ghost use Rattle.std.specs.Prelude.{◌≡◌, false};
ghost use Rattle.share_base.specs.declared.command.Command.TheVariants.{MakeCurrency, RemoveCurrency, MakeTicket};
ghost use Rattle.share_base.specs.declared.command.Command.TheVariants.{RemoveTicket, FundCurrency, FundFlow, Unfund};
ghost use Rattle.share_base.specs.declared.command.Command.TheVariants.{Amend};
ghost use Rattle.share_model.specs.link.Calls.{is_spent, CommandCall, CommandStep};

use super::Link;
use super::levelling::level;
use share_base::{Command, Name, Refusal, Reply};
use share_model::Rates;

impl<S: Rates> Link<S> {
    fn make_currency(&mut self, name: Name) -> Reply
        requires { is_spent self.old ≡ false }
        ensures { CommandCall self.old (MakeCurrency name) result self.new }
    {
        self.ledger.leaves_tickets();
        match self.ledger.make_currency(name) {
            Err(Refusal::NoMemory) => Reply::Refused(Refusal::NoMemory),
            Err(refusal) => self.refuse(refusal),
            Ok(()) => {
                self.counts.events += 1;
                Reply::Done
            }
        }
    }

    fn remove_currency(&mut self, name: Name) -> Reply
        requires { is_spent self.old ≡ false }
        ensures { CommandStep self.old (RemoveCurrency name) result self.new }
    {
        self.ledger.leaves_tickets();
        match self.ledger.remove_currency(name) {
            Err(refusal) => self.refuse(refusal),
            Ok(()) => {
                self.counts.events += 1;
                Reply::Done
            }
        }
    }

    fn make_ticket(&mut self, amount: u64, currency: Name) -> Reply
        requires { is_spent self.old ≡ false }
        ensures { CommandCall self.old (MakeTicket amount currency) result self.new }
    {
        self.ledger.leaves_tickets();
        match self.ledger.make_ticket(amount, currency) {
            Err(Refusal::NoMemory) => Reply::Refused(Refusal::NoMemory),
            Err(refusal) => self.refuse(refusal),
            Ok(ticket) => {
                self.counts.events += 1;
                Reply::Ticket(ticket)
            }
        }
    }

    fn remove_ticket(&mut self, ticket: u64) -> Reply
        requires { is_spent self.old ≡ false }
        ensures { CommandStep self.old (RemoveTicket ticket) result self.new }
    {
        self.ledger.leaves_tickets();
        match self.ledger.remove_ticket(ticket) {
            Err(refusal) => self.refuse(refusal),
            Ok(()) => {
                self.counts.events += 1;
                Reply::Done
            }
        }
    }

    fn fund_currency(&mut self, ticket: u64, currency: Name) -> Reply
        requires { is_spent self.old ≡ false }
        ensures { CommandStep self.old (FundCurrency ticket currency) result self.new }
    {
        match self.ledger.fund_currency(ticket, currency) {
            Err(refusal) => self.refuse(refusal),
            Ok(()) => {
                self.counts.events += 1;
                level(&mut self.queue, &self.ledger, &mut self.levelled_with);
                Reply::Done
            }
        }
    }

    fn fund_flow(&mut self, ticket: u64, flow: Name) -> Reply
        requires { is_spent self.old ≡ false }
        ensures { CommandStep self.old (FundFlow ticket flow) result self.new }
    {
        match self.ledger.fund_flow(ticket, flow) {
            Err(refusal) => self.refuse(refusal),
            Ok(()) => {
                self.counts.events += 1;
                level(&mut self.queue, &self.ledger, &mut self.levelled_with);
                Reply::Done
            }
        }
    }

    fn unfund(&mut self, ticket: u64) -> Reply
        requires { is_spent self.old ≡ false }
        ensures { CommandStep self.old (Unfund ticket) result self.new }
    {
        match self.ledger.unfund(ticket) {
            Err(refusal) => self.refuse(refusal),
            Ok(()) => {
                self.counts.events += 1;
                level(&mut self.queue, &self.ledger, &mut self.levelled_with);
                Reply::Done
            }
        }
    }

    fn amend(&mut self, ticket: u64, amount: u64) -> Reply
        requires { is_spent self.old ≡ false }
        ensures { CommandStep self.old (Amend ticket amount) result self.new }
    {
        match self.ledger.amend(ticket, amount) {
            Err(refusal) => self.refuse(refusal),
            Ok(()) => {
                self.counts.events += 1;
                level(&mut self.queue, &self.ledger, &mut self.levelled_with);
                Reply::Done
            }
        }
    }

    /// Makes a command: one event, or no event if memory was refused.
    pub fn command(&mut self, command: Command) -> Reply
        requires { is_spent self.old ≡ false }
        ensures { CommandCall self.old command result self.new }
    {
        match command {
            Command::MakeCurrency(name) => self.make_currency(name),
            Command::RemoveCurrency(name) => self.remove_currency(name),
            Command::MakeTicket { amount, currency } => self.make_ticket(amount, currency),
            Command::RemoveTicket(ticket) => self.remove_ticket(ticket),
            Command::FundCurrency { ticket, currency } => self.fund_currency(ticket, currency),
            Command::FundFlow { ticket, flow } => self.fund_flow(ticket, flow),
            Command::Unfund(ticket) => self.unfund(ticket),
            Command::OpenFlow {
                name,
                limit,
                tariff,
            } => self.open_flow(name, limit, tariff),
            Command::CloseFlow(name) => self.close_flow(name),
            Command::Hold(name) => self.hold_flow(name),
            Command::Resume(name) => self.resume_flow(name),
            Command::Amend { ticket, amount } => self.amend(ticket, amount),
        }
    }
}
