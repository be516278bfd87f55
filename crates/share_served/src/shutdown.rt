//! The work on a link after its service.
ghost use Rattle.std.specs.Prelude.{◌≡◌, not};
ghost use Rattle.share_model.specs.lists.Each.{Each};
ghost use Rattle.share_model.specs.text.Report.{report};
ghost use Rattle.share_served.specs.Shutdown.{journal_of, with_want, with_end, IsWritten, IsClosing};

use crate::audit_file::Keep;
use crate::faults::{FoundFaults, Reasons};
use share_connections::{Connections, Reason, Uplink};
use share_ingress::IngressEnd;
use share_journal::{Journal, Recorder, Source};
use share_locked::{Clerk, LinkBrand, Locked, Unsettled, WhyUnsettled, settle};
use share_model::{PlainWriter, Rates, TellingWriter};
use share_report::report;
use std::alloc::Global;
use std::io::Eprint;
use std::sync::{Arc, Wait};
use std::time::Clock;

/// A link after its service, with the ends of its queue, its clerks, and what went wrong in its run.
#[derive(Drop)]
pub struct StoppedLink<S: Rates, L: LinkBrand> {
    pub locked: Locked<PlainWriter<Uplink>, S, L>,
    pub ends: Vec<IngressEnd>,
    pub clerks: Vec<Clerk<L>>,
    pub connections: Arc<Connections>,
    pub found: FoundFaults,
}

impl<S: Rates, L: LinkBrand> StoppedLink<S, L> {
    /// The reasons that the system gave for faults of the run.
    pub fn reasons<R: Wait>(&self, rt: &R) -> Reasons {
        let accept = self.connections.accept_fault(rt);
        let uplink = self.connections.socket().fault();
        Reasons {
            accept: accept.map(|fault| Reason(fault)),
            uplink: uplink.map(|fault| Reason(fault)),
        }
    }
}

/// The number of entries of each kind in a journal.
#[derive(Clone, Copy, Debug, PartialEq, Eq)]
struct EntryCounts {
    commands: u64,
    arrivals: u64,
    turns: u64,
}

fn counts_of(journal: &Journal) -> EntryCounts {
    let mut counts = EntryCounts {
        commands: 0,
        arrivals: 0,
        turns: 0,
    };
    for entry in journal.entries() {
        let count = match entry.source {
            Source::Clerk(_) => &mut counts.commands,
            Source::Worker(_) => &mut counts.arrivals,
            Source::Link => &mut counts.turns,
        };
        *count = count.saturating_add(1);
    }
    counts
}

// Writes the audit of the link and its report, and gives the uplink's peer time to take all that was sent.
fn finish<S: Rates, R: Clock + Eprint, K: Keep, O: TellingWriter>(
    rt: &R,
    recorder: &Recorder<PlainWriter<Uplink>, S>,
    connections: &Connections,
    keep: K,
    output: &mut O,
    found: FoundFaults,
) -> FoundFaults
    ensures audit { K.kept keep (journal_of recorder.now) (not result.audit) }
    ensures output { IsWritten O.told O.answers output.old output.new (report recorder.now.link.live) result.output }
    ensures faults { result ≡ with_end found recorder.now.link.live.broken result.audit result.output }
{
    let mut found = found;
    let socket = connections.socket();
    socket.end_writing();
    let counts = counts_of(recorder.journal());
    let (commands, arrivals, turns) = (counts.commands, counts.arrivals, counts.turns);
    connections.log(
        rt,
        format_args!("{commands} commands, {arrivals} arrivals, {turns} turns"),
    );
    found.uplink = recorder.engine().broken();
    found.audit = !keep.keep(recorder.journal());
    found.output = report(recorder.engine(), output).is_err();
    connections.log(rt, "waiting for the uplink's peer to end");
    socket.read_away(rt);
    found
}

// Adds why a link was not settled to the faults.
fn with_want(found: FoundFaults, why: WhyUnsettled) -> FoundFaults
    ensures { result ≡ with_want found why }
{
    let mut found = found;
    match why {
        WhyUnsettled::Unsent => found.unsent = true,
        WhyUnsettled::Mismatch => found.mismatch = true,
        WhyUnsettled::LeftOver => found.left_over = true,
        WhyUnsettled::NoMemory => found.memory = true,
    }
    found
}

// The same for a link that was not settled. The reason is among the faults.
fn finish_unsettled<S: Rates + Drop, L: LinkBrand, R: Clock + Eprint, K: Keep, O: TellingWriter>(
    rt: &R,
    back: Unsettled<PlainWriter<Uplink>, S, L>,
    connections: &Connections,
    keep: K,
    output: &mut O,
    found: FoundFaults,
) -> FoundFaults
    ensures audit { K.kept keep (journal_of back.locked.recorder) (not result.audit) }
    ensures output { IsWritten O.told O.answers output.old output.new (report back.locked.recorder.link.live)
        result.output }
    ensures faults { result
        ≡ with_end (with_want found back.why) back.locked.recorder.link.live.broken result.audit result.output }
{
    let found = with_want(found, back.why);
    let found = finish(rt, back.locked.recorder(), connections, keep, output, found);
    drop(back);
    found
}

/// Settles the link, and writes its audit and its report, even if it was not settled. All that was found is among the
/// faults, and nothing else.
pub fn close<S: Rates + Drop, L: LinkBrand, R: Clock + Eprint, K: Keep, O: TellingWriter>(
    rt: &R,
    alloc: Global,
    ended: StoppedLink<S, L>,
    keep: K,
    output: &mut O,
) -> FoundFaults
    requires { Each (λ e. e.link ≡ L.link) ended.ends.items }
    ensures { IsClosing K.kept O.told O.answers ended.locked ended.ends.items ended.clerks.items keep
        output.old output.new ended.found result }
{
    let StoppedLink {
        locked,
        ends,
        clerks,
        connections,
        found,
    } = ended;
    // Its contract says that the link is of version 2, and that the journal is its run.
    let _ = locked.recorder();
    match settle(alloc, locked, ends, clerks) {
        Ok(settled) => {
            let found = finish(rt, &settled.recorder, &connections, keep, output, found);
            drop(settled);
            drop(connections);
            found
        }
        Err(back) => {
            let found = finish_unsettled(rt, back, &connections, keep, output, found);
            drop(connections);
            found
        }
    }
}
