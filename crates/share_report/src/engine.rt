//! The report of an engine.
ghost use Rattle.std.specs.Prelude.{◌≡◌, ◌≤◌, ◌+◌, ◌*◌, ◌^◌, ◌++◌, [], length, slice_get, option_map};
ghost use Rattle.share_model.specs.run.Sound.{Sound};
ghost use Rattle.share_model.specs.io.Printing.{WritesText};
ghost use Rattle.share_model.specs.text.Report.{flow_shown, standing_of, flows_text, report};

use crate::lines::{MAX_FLOW, MAX_TOTALS, push_flow, push_totals};
use crate::text::ReportText;
use share_core::{Engine, MAX_FLOWS};
use share_model::{Fault, FlowLine, Rates, Standing, TellingWriter, put};

/// Writes the report of a link. It has a line for each of its totals, a line for each open flow, in order of opening,
/// and the line `end`. A link whose life is spent is reported too. The call changes nothing and takes no memory. The
/// text is put together on the stack, so a writer that accepts it whole is called once. If an offer is refused, a
/// beginning of the text was written.
pub fn report<W, S: Rates, V: TellingWriter>(
    engine: &Engine<W, S>,
    output: &mut V,
) -> Result<(), Fault>
    ensures { WritesText V.told V.answers output.old output.new (report engine.now.live) result }
{
    let mut text = ReportText::new();
    push_report(&mut text, engine);
    put(output, text.as_bytes())
}

fn push_report<W, S: Rates>(text: &mut ReportText, engine: &Engine<W, S>)
    requires { text.old ≡ [] }
    ensures { text.new ≡ report engine.now.live }
{
    // The number of events is not used: the contract of `events` says that the link is sound.
    let _ = engine.events();
    push_totals(text, &engine.totals());
    push_flows(text, engine);
    text.push(b"end\n");
}

// Adds the line of each open flow.
fn push_flows<W, S: Rates>(text: &mut ReportText, engine: &Engine<W, S>)
    requires life { engine.now.life ≤ 2 ^ 24 }
    requires sound { Sound engine.now.life engine.now.rates engine.now.live }
    requires room { length text.old ≤ 2 * MAX_TOTALS }
    ensures bytes { text.new ≡ text.old ++ flows_text engine.now.live }
    ensures few { length text.new ≤ length text.old + MAX_FLOWS * MAX_FLOW }
{
    let mut n = 0;
    while let Some(flow) = flow_at(engine, n) {
        push_flow(text, &flow);
        n += 1;
    }
}

// The line of an open flow. Flows are counted from 0.
fn flow_at<W, S: Rates>(engine: &Engine<W, S>, n: u32) -> Option<FlowLine>
    requires { Sound engine.now.life engine.now.rates engine.now.live }
    ensures { result
        ≡ option_map (flow_shown engine.now.live) (slice_get engine.now.live.graph.flows n) }
{
    let row = engine.row(n)?;
    let position = engine.position(row.flow)?;
    Some(FlowLine {
        flow: row.flow,
        name: row.name,
        tickets: engine.tickets(row.flow)?,
        waiting: row.waiting,
        account: engine.account(row.flow)?,
        standing: standing(engine.held(row.flow)?, position.competing),
        place: position.place,
    })
}

// A flow that is held does not compete.
fn standing(held: bool, competing: bool) -> Standing
    ensures { result ≡ standing_of held competing }
{
    if held {
        Standing::Held
    } else if competing {
        Standing::In
    } else {
        Standing::Out
    }
}
