//! The texts of answers.
ghost use Rattle.std.specs.Prelude.{◌≡◌, ◌≤◌, ◌+◌, ◌++◌, length};
ghost use Rattle.share_model.specs.text.Texts.{refusal_text, reply_text, turn_text, outcome_text, line_text};

use crate::text::Text;
use share_base::{Outcome, Refusal, Reply, Turn};

/// The greatest length of an answer in bytes, with its line feed.
pub const MAX_ANSWER: usize = 128;

/// More bytes than the text of an outcome has.
const MAX_OUTCOME: usize = 100;

/// Adds the text of an outcome and a line feed.
#[inline(always)]
pub fn push_line<T: Text>(text: &mut T, outcome: &Outcome)
    requires { length (T.contents text.old) + MAX_ANSWER ≤ T.room }
    ensures { T.contents text.new ≡ T.contents text.old ++ line_text outcome.now }
{
    push_outcome(text, outcome);
    text.push_str("\n");
}

fn push_outcome<T: Text>(text: &mut T, outcome: &Outcome)
    requires { length (T.contents text.old) + MAX_OUTCOME ≤ T.room }
    ensures bytes { T.contents text.new ≡ T.contents text.old ++ outcome_text outcome.now }
    ensures few { length (T.contents text.new) ≤ length (T.contents text.old) + MAX_OUTCOME }
{
    match outcome {
        Outcome::Replied(reply) => push_reply(text, reply),
        Outcome::Turned(turn) => push_turn(text, turn),
    }
}

fn push_reply<T: Text>(text: &mut T, reply: &Reply)
    requires { length (T.contents text.old) + MAX_OUTCOME ≤ T.room }
    ensures bytes { T.contents text.new ≡ T.contents text.old ++ reply_text reply.now }
    ensures few { length (T.contents text.new) ≤ length (T.contents text.old) + MAX_OUTCOME }
{
    match reply {
        Reply::Done => text.push_str("ok"),
        Reply::Ticket(ticket) => {
            text.push_str("ticket ");
            text.push_number(ticket.number() as u64);
        }
        Reply::Flow(flow) => {
            text.push_str("flow ");
            text.push_number(flow.number() as u64);
        }
        Reply::Closed {
            flow,
            dropped,
            account,
        } => {
            text.push_str("closed ");
            text.push_number(flow.number() as u64);
            text.push_str(" ");
            text.push_number(*dropped as u64);
            text.push_str(" ");
            text.push_number(*account);
        }
        Reply::Packet { flow, seq } => {
            text.push_str("packet ");
            text.push_number(flow.number() as u64);
            text.push_str(" ");
            text.push_number(*seq as u64);
        }
        Reply::Refused(refusal) => push_refusal(text, *refusal),
    }
}

fn push_turn<T: Text>(text: &mut T, turn: &Turn)
    requires { length (T.contents text.old) + MAX_OUTCOME ≤ T.room }
    ensures bytes { T.contents text.new ≡ T.contents text.old ++ turn_text turn.now }
    ensures few { length (T.contents text.new) ≤ length (T.contents text.old) + MAX_OUTCOME }
{
    match turn {
        Turn::Wrote {
            flow,
            seq,
            k,
            whole,
        } => {
            text.push_str("wrote ");
            text.push_number(flow.number() as u64);
            text.push_str(" ");
            text.push_number(*seq as u64);
            text.push_str(" ");
            text.push_number(*k as u64);
            text.push_str(if *whole { " whole" } else { " part" });
        }
        Turn::Torn { flow, seq, j } => {
            text.push_str("torn ");
            text.push_number(flow.number() as u64);
            text.push_str(" ");
            text.push_number(*seq as u64);
            text.push_str(" ");
            text.push_number(*j as u64);
        }
        Turn::Idle => text.push_str("idle"),
        Turn::Again => text.push_str("again"),
        Turn::Broken => push_refusal(text, Refusal::Broken),
        Turn::Spent => push_refusal(text, Refusal::Spent),
    }
}

fn push_refusal<T: Text>(text: &mut T, refusal: Refusal)
    requires { length (T.contents text.old) + MAX_OUTCOME ≤ T.room }
    ensures bytes { T.contents text.new ≡ T.contents text.old ++ refusal_text refusal }
    ensures few { length (T.contents text.new) ≤ length (T.contents text.old) + MAX_OUTCOME }
{
    text.push_str(refusal_text(refusal));
}

fn refusal_text(refusal: Refusal) -> &'static str
    ensures text { result.now ≡ refusal_text refusal }
    ensures few { length result.now ≤ 20 }
{
    match refusal {
        Refusal::NoMemory => "no 1 NoMemory",
        Refusal::Spent => "no 2 Spent",
        Refusal::Syntax => "no 3 Syntax",
        Refusal::Range => "no 4 Range",
        Refusal::NoCurrency => "no 5 NoCurrency",
        Refusal::NoTicket => "no 6 NoTicket",
        Refusal::NoFlow => "no 7 NoFlow",
        Refusal::NoTariff => "no 8 NoTariff",
        Refusal::Taken => "no 9 Taken",
        Refusal::Base => "no 10 Base",
        Refusal::InUse => "no 11 InUse",
        Refusal::Funding => "no 12 Funding",
        Refusal::Unfunded => "no 13 Unfunded",
        Refusal::Crowded => "no 14 Crowded",
        Refusal::Cycle => "no 15 Cycle",
        Refusal::Deep => "no 16 Deep",
        Refusal::TableFull => "no 17 TableFull",
        Refusal::Sending => "no 18 Sending",
        Refusal::BufferFull => "no 19 BufferFull",
        Refusal::Broken => "no 20 Broken",
        Refusal::Held => "no 21 Held",
        Refusal::NotHeld => "no 22 NotHeld",
    }
}
