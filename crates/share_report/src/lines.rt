//! The lines of a report.
ghost use Rattle.std.specs.Prelude.{◌≡◌, ◌≤◌, ◌+◌, ◌*◌, ◌++◌, length};
ghost use Rattle.share_model.specs.text.Report.{total_line, totals_text, standing_word, link_number, flow_line};

use crate::text::{Column, ROOM, ReportText, WIDEST};
use itoa::Integer;
use share_model::{FlowLine, LinkState, Standing, Totals};

/// More bytes than the lines of the totals have.
pub(crate) const MAX_TOTALS: usize = 1024;

/// More bytes than the line of an open flow has.
pub(crate) const MAX_FLOW: usize = 216;

/// The number of places that the column of a key has.
const KEY: usize = 8;

/// Adds the lines of the totals.
pub fn push_totals(text: &mut ReportText, totals: &Totals)
    requires { length text.old ≤ MAX_TOTALS }
    ensures bytes { text.new ≡ text.old ++ totals_text totals.now }
    ensures few { length text.new ≤ length text.old + MAX_TOTALS }
{
    push_total(text, b"clock", totals.clock);
    push_total(text, b"accepted", totals.accepted);
    push_total(text, b"written", totals.written);
    push_total(text, b"torn", totals.torn);
    push_total(text, b"waiting", totals.waiting);
    push_total(text, b"dropped", totals.dropped);
    push_total(text, b"bytes", totals.bytes);
    push_total(text, b"past", totals.past);
    push_total(text, b"tickets", totals.tickets);
    push_total(text, b"pass", totals.pass);
    push_total(text, b"link", link_number(totals.link));
}

// Adds the line of a total.
fn push_total<I: Integer>(text: &mut ReportText, key: &[u8], value: I)
    requires short { length key.now ≤ KEY }
    requires room { length text.old + I.MAX_STR_LEN + (2 * KEY + WIDEST + 1) ≤ ROOM }
    ensures bytes { text.new ≡ text.old ++ total_line (key.now, I.text value) }
    ensures few { length text.new ≤ length text.old + I.MAX_STR_LEN + (2 * KEY + WIDEST + 1) }
{
    text.push_column(Column::Left(KEY), key);
    text.push_number(Column::Right(WIDEST), value);
    text.push(b"\n");
}

fn link_number(state: LinkState) -> u8
    ensures { result ≡ link_number state }
{
    match state {
        LinkState::Free => 0,
        LinkState::InPart => 1,
        LinkState::Torn => 2,
    }
}

/// Adds the line of an open flow.
pub fn push_flow(text: &mut ReportText, flow: &FlowLine)
    requires { length text.old + MAX_FLOW ≤ ROOM }
    ensures bytes { text.new ≡ text.old ++ flow_line flow.now }
    ensures few { length text.new ≤ length text.old + MAX_FLOW }
{
    text.push(b"flow ");
    text.push_number(Column::Right(8), flow.flow.number());
    text.push(b" ");
    text.push_column(Column::Left(16), flow.name.as_bytes());
    text.push(b" ");
    text.push_number(Column::Right(7), flow.tickets);
    text.push(b" ");
    text.push_number(Column::Right(4), flow.waiting);
    text.push(b" ");
    text.push_number(Column::Right(17), flow.account);
    text.push(b" ");
    text.push_column(Column::Left(3), standing_word(flow.standing));
    text.push(b" ");
    text.push_number(Column::Right(WIDEST), flow.place);
    text.push(b"\n");
}

fn standing_word(standing: Standing) -> &'static [u8]
    ensures word { result.now ≡ standing_word standing }
    ensures short { length result.now ≤ 3 }
{
    match standing {
        Standing::In => b"in",
        Standing::Out => b"out",
        Standing::Held => b"hld",
    }
}
