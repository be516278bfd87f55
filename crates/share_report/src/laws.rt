//! Laws of every report. Each function here does nothing: its contract is a law, which is proved with it.
ghost use Rattle.std.specs.Prelude.{◌≡◌, ◌<◌, ◌≤◌, ◌^◌, ℕ, pos, true, false, List, length, slice_get, Some};
ghost use Rattle.share_model.specs.declared.funding.OpenFlow.{OpenFlow};
ghost use Rattle.share_model.specs.declared.rates.Rate.{Rate};
ghost use Rattle.share_model.specs.funding.Graph.{NameBytes};
ghost use Rattle.share_model.specs.link.Books.{is_held};
ghost use Rattle.share_model.specs.link.Buffers.{is_busy};
ghost use Rattle.share_model.specs.link.Live.{Live};
ghost use Rattle.share_model.specs.link.Commands.{waiting_of};
ghost use Rattle.share_model.specs.run.Sound.{Sound};
ghost use Rattle.share_model.specs.stride.Moves.{client};
ghost use Rattle.share_model.specs.declared.link.FlowLine.{FlowLine};
ghost use Rattle.share_model.specs.text.Report.{total_line, flow_line, flow_shown};
ghost use Rattle.share_report.specs.Widths.{FitsColumns};

use share_model::Standing;

/// The line of a total that fits its columns has 34 bytes and a line feed. That of such a flow has 92 and a line feed.
pub fn lines_fill_their_columns()
    ensures totals { (key value : List ℕ) → length key ≤ 8 → length value ≤ 26
        → length (total_line (key, value)) ≡ 35 }
    ensures flows { (f : FlowLine) → FitsColumns f → length (flow_line f) ≡ 93 }
{}

/// A flow whose buffer holds no packet shows no tickets, whatever it competed with last. Nor does a flow that is held,
/// which shows that it is.
pub fn idle_flows_show_no_tickets()
    ensures idle { (life : ℕ) (rates : List Rate) (l : Live) (e : NameBytes × OpenFlow) → Sound life rates l
        → is_busy l.buffers e.1.number ≡ false → (flow_shown l e).tickets ≡ 0 }
    ensures held { (life : ℕ) (rates : List Rate) (l : Live) (e : NameBytes × OpenFlow) → Sound life rates l
        → is_held l.books e.1.number ≡ true
        → ((flow_shown l e).tickets ≡ 0) × ((flow_shown l e).standing ≡ Standing.Held) }
{}

/// A flow that never competed, so that its client has no tickets yet, shows 0 as its place.
pub fn new_flows_show_no_place()
    ensures { (life : ℕ) (rates : List Rate) (l : Live) (e : NameBytes × OpenFlow) → life ≤ 2 ^ 24
        → Sound life rates l → (client l.queue e.1.number).tickets ≡ 0 → (flow_shown l e).place ≡ pos 0 }
{}

/// An open flow of a link fits the columns of its line, if its name is short and few of its packets wait. A short name
/// has at most 16 bytes, and few packets are fewer than 10^4.
pub fn flows_fit_their_columns()
    ensures { (life : ℕ) (rates : List Rate) (l : Live) (n : ℕ) (e : NameBytes × OpenFlow) → life ≤ 2 ^ 24
        → Sound life rates l → slice_get l.graph.flows n ≡ Some e → length e.0 ≤ 16
        → waiting_of l e.1.number < 10 ^ 4 → FitsColumns (flow_shown l e) }
{}
