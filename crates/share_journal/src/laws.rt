//! Laws of every recorder and its journal. A function here does nothing: its contract is a law, which is proved
//! with it.
ghost use Rattle.std.specs.Prelude.{◌≡◌, ◌≤◌, ◌++◌, ◌∷◌, [], ℕ, Bool, List};
ghost use Rattle.share_model.specs.text.Audit.{IsAmple};
ghost use Rattle.share_model.specs.text.Talk.{start_of_script, talk, FoundMemory};
ghost use Rattle.share_model.specs.Promise.{Promise};
ghost use Rattle.share_model.specs.link.Gains.{GainsAreWithinShares};
ghost use Rattle.share_model.specs.link.Readings.{TicketsAreWithin, TicketsAreUncapped};
ghost use Rattle.share_base.specs.declared.command.Command.{Command};
ghost use Rattle.share_base.specs.declared.command.Reply.{Reply};
ghost use Rattle.share_base.specs.declared.command.Turn.{Turn};
ghost use Rattle.share_model.specs.ingress.Queue.{Numbered};
ghost use Rattle.share_journal.specs.Arrivals.{arrivals, arrivals_of, next_of};
ghost use Rattle.share_journal.specs.Entries.{events_in, replies_of, command_entry, arrival_entry, turn_entries};
ghost use Rattle.share_journal.specs.declared.entry.Entry.{Entry};
ghost use Rattle.share_journal.specs.Replays.{IsReplayOf, audit_lines_of};

use crate::recorder::Recorder;
use share_core::{shares_of_calls, tickets_are_shares};
use share_model::{Rates, TellingWriter};

/// The promise of this project, for every recorder. Take any calls, and any bytes that each write accepted, up to the
/// writer's first fault. The replies, the accounts and the bytes are those of one plain fold. Each next frame of the
/// fold carries the head packet of the flow with the least pass, on tickets computed from scratch.
pub fn recorders_are_one_fold<W: TellingWriter, S: Rates>(recorder: &Recorder<W, S>)
    ensures { Promise recorder.now.link.live.version recorder.now.link.life recorder.now.link.rates
        (events_in recorder.now.entries) (replies_of recorder.now.entries) recorder.now.link.live
        (W.told recorder.now.link.writer) }
{
    // The answers are not used: their contracts say that the entries are a run, and bound a life.
    let _ = recorder.journal();
    let _ = recorder.engine().events();
}

/// The audit of a recorder's journal makes its run again, whatever its writer accepted. It is run as a script on a new
/// link with the same tariffs and a life that is not shorter. Its first line chooses the version of the link. If no
/// line lacks memory, it is answered by the journal's replies, one line each, and comes to the state of the run. The
/// link then holds what the recorder's holds, and its tape the bytes that the recorder's writer reports. Whether a line
/// lacked memory is seen in the answers: if none of their lines is `no 1 NoMemory`, none did.
pub fn audits_replay<W: TellingWriter, S: Rates>(recorder: &Recorder<W, S>)
    ensures ample { (life : ℕ) (lacks : List Bool) → recorder.now.link.life ≤ life → IsAmple lacks
        → IsReplayOf W.told recorder.now.link recorder.now.entries life lacks }
    ensures answered { (life : ℕ) (lacks : List Bool) → recorder.now.link.life ≤ life
        → FoundMemory (talk life recorder.now.link.rates start_of_script lacks
        (audit_lines_of recorder.now.link recorder.now.entries))
        → IsReplayOf W.told recorder.now.link recorder.now.entries life lacks }
{
    // The answer of `journal` is not used: its contract says that the entries are a run.
    let _ = recorder.journal();
}

/// The arrivals of a journal are numbered 1, 2, .. of each worker, whatever its entries. An arrival that is journaled
/// is its worker's next one; commands, turns and faults are not arrivals.
pub fn arrivals_are_numbered()
    ensures numbers { (entries : List Entry) (worker : ℕ) → Numbered 0 (arrivals_of worker entries) }
    ensures arrival { (entries : List Entry) (worker : ℕ) (name body : List ℕ) (reply : Reply)
        → arrivals (entries ++ arrival_entry worker name body reply ∷ [])
        ≡ arrivals entries ++ next_of (arrivals entries) worker name body ∷ [] }
    ensures command { (entries : List Entry) (clerk : ℕ) (command : Command) (reply : Reply)
        → arrivals (entries ++ command_entry clerk command reply ∷ []) ≡ arrivals entries }
    ensures turn { (entries : List Entry) (turn : Turn)
        → arrivals (entries ++ turn_entries turn) ≡ arrivals entries }
{}

/// The laws of the shares of a link hold of one with a journal. Take any chain of calls on the recorder: `command`,
/// `arrive`, `turn` and `tear`, with any arguments and answers. Each makes the call of the link. No frame is in part
/// before the first call. Two flows, `one` and `other`, compete before it and after each call, each with tickets that
/// stay the same. By `Engine::position`, the gain of `one` in the chain is at most the greater of 0 and a sum of three
/// terms. They are the gain of `other`, the distance that `other` was ahead at the start, and the largest gain of `one`
/// in a single call.
///
/// The answers of `Engine::tickets` for the open flows sum up to at most the active amount of `base`. While at most
/// 2^20 of `base` is issued, each is the worth of the tickets that fund the flow.
pub fn shares_of_recorders<W: TellingWriter, S: Rates>(recorder: &Recorder<W, S>)
    ensures calls { GainsAreWithinShares W.answers recorder.now.link }
    ensures within { TicketsAreWithin recorder.now.link }
    ensures uncapped { TicketsAreUncapped recorder.now.link }
{
    // Laws, which do nothing: their contracts say this of the link.
    let engine = recorder.engine();
    shares_of_calls(engine);
    tickets_are_shares(engine);
}
