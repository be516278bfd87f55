//! The effects of control lines.
ghost use Rattle.std.specs.Prelude.{◌≡◌, false, true};
ghost use Rattle.share_base.specs.declared.command.Command.TheVariants.{Hold, Resume};
ghost use Rattle.share_book.specs.Audited.{lacks_text};
ghost use Rattle.share_gateway.specs.PlanChanges.{with_hold};
ghost use Rattle.share_book.specs.Changes.{Amends, Changes, IsChange, is_done, plan_after};

use super::Book;
use share_base::{Command, Name, Refusal, Reply};
use share_model::Rates;

impl<S: Rates> Book<S> {
    /// Holds a tenant: it takes packets, and sends none. Refusals, in order: `Spent`, which is no event, `NoFlow` and
    /// `Held`, which are. The plan changes with it. It takes no memory. The condition: the text has room for a line.
    pub fn hold(&mut self, tenant: Name) -> Reply
        requires { lacks_text self.old.audited ≡ false }
        ensures { Changes self.old (Hold tenant) (with_hold tenant true self.old.plan) result self.new }
    {
        if self.audited.engine().spent() {
            return Reply::Refused(Refusal::Spent);
        }
        let reply = self.audited.command(Command::Hold(tenant));
        if is_done(&reply) {
            self.plan.set_held(tenant, true);
        }
        reply
    }

    /// Ends the hold of a tenant. Refusals, in order: `Spent`, which is no event, `NoFlow` and `NotHeld`, which are.
    /// The plan changes with it. It takes no memory. The condition: the text has room for a line.
    pub fn resume(&mut self, tenant: Name) -> Reply
        requires { lacks_text self.old.audited ≡ false }
        ensures { Changes self.old (Resume tenant) (with_hold tenant false self.old.plan) result self.new }
    {
        if self.audited.engine().spent() {
            return Reply::Refused(Refusal::Spent);
        }
        let reply = self.audited.command(Command::Resume(tenant));
        if is_done(&reply) {
            self.plan.set_held(tenant, false);
        }
        reply
    }

    /// Amends a grant, numbered from 1, of a currency or a tenant: its ticket has this amount, and so has the grant of
    /// the plan. Refusals, in order: `Spent`; `NoCurrency` if neither has the name; `NoTicket` if it has fewer grants,
    /// which are no events. Last is `Range` unless the amount is 1 to 2^20, which is one. It takes no memory. The
    /// condition: the text has room for a line.
    pub fn amend(&mut self, name: Name, number: u64, amount: u64) -> Reply
        requires { lacks_text self.old.audited ≡ false }
        ensures { Amends self.old name number amount result self.new }
    {
        if self.audited.engine().spent() {
            return Reply::Refused(Refusal::Spent);
        }
        let ticket = match self.plan.ticket_of(name, number) {
            Ok(ticket) => ticket,
            Err(why) => return Reply::Refused(why),
        };
        let reply = self.audited.command(Command::Amend { ticket, amount });
        if is_done(&reply) {
            self.plan.set_amount(name, number as usize - 1, amount);
        }
        reply
    }
}

fn is_done(reply: &Reply) -> bool
    ensures { result ≡ is_done reply.now }
{
    matches!(reply, Reply::Done)
}
