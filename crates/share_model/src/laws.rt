//! Laws of every run of a link. Each function here does nothing. Its contract is a law, and is proved.
ghost use Rattle.std.specs.Prelude.{◌≡◌, ◌≢◌, ◌<◌, ◌≤◌, ◌+◌, ◌^◌, ℕ, Bool, true, List, []};
ghost use Rattle.std.specs.Prelude.{◌∷◌, ◌++◌};
ghost use Rattle.std.specs.Prelude.{length, find, filter, nat_eq, nat_lt, None, Some, is_some, codes};
ghost use Rattle.share_base.specs.declared.command.Event.{Event};
ghost use Rattle.share_base.specs.declared.version.Version.{Version};
ghost use Rattle.share_base.specs.declared.version.Version.TheVariants.{One, Two};
ghost use Rattle.share_model.specs.declared.link.Book.{Book};
ghost use Rattle.share_model.specs.declared.rates.Rate.{Rate};
ghost use Rattle.share_model.specs.declared.stride.Client.{Client};
ghost use Rattle.share_model.specs.stride.Bound.{IsNearGlobalPass};
ghost use Rattle.share_model.specs.stride.Moves.{client};
ghost use Rattle.share_model.specs.stride.Shares.{IsWithinShare};
ghost use Rattle.share_model.specs.run.Shares.{KeepCompeting, stretch_charges};
ghost use Rattle.share_model.specs.stride.Level.{IsLevel};
ghost use Rattle.share_model.specs.funding.Laws.{SharesAreWithin, uncapped_tickets, issued_amount};
ghost use Rattle.std.specs.FinMap.{get};
ghost use Rattle.share_model.specs.link.Tariff.{AreInRange};
ghost use Rattle.share_model.specs.link.Frame.{Packet};
ghost use Rattle.share_model.specs.link.Buffers.{head_of};
ghost use Rattle.share_model.specs.link.Live.{tickets_of_all, with_level_queue};
ghost use Rattle.share_model.specs.link.Books.{is_book_of};
ghost use Rattle.share_model.specs.run.Fold.{Sent, TornFrame, empty_state, run, outcomes, out};
ghost use Rattle.share_model.specs.run.Events.{MayRun, event_bytes, writes_in};
ghost use Rattle.share_model.specs.run.Sound.{max_life, Sound, SoundState};
ghost use Rattle.share_model.specs.lists.Rises.{Rises};
ghost use Rattle.share_model.specs.run.History.{accepted_packets, packets_of, queued_packets, AreFramesOf};
ghost use Rattle.share_model.specs.run.History.{sent_packets};
ghost use Rattle.share_model.specs.run.History.{sent_numbers, bill, past_bill};
ghost use Rattle.share_model.specs.link.Gains.{GainsAreWithinShares};
ghost use Rattle.share_model.specs.link.Totals.{torn_count, waiting};
ghost use Rattle.share_model.specs.link.View.{LinkView};
ghost use Rattle.share_model.specs.funding.Graph.{base, flow_numbers, tickets};
ghost use Rattle.share_model.specs.lists.Rises.{has_number};
ghost use Rattle.share_model.specs.text.Events.{made_of, events_of, texts_of};
ghost use Rattle.share_model.specs.text.Report.{report};
ghost use Rattle.share_model.specs.text.Talk.{start_of_script, version_of_script, talk, after, FoundMemory};
ghost use Rattle.share_model.specs.io.Told.{Told};
ghost use Rattle.share_model.specs.Promise.{Promise};

use crate::writer::TellingWriter;

/// A link that made events which may follow one another is sound.
pub fn events_keep_sound()
    ensures { (version : Version) (life : ℕ) (rates : List Rate) (events : List Event) → AreInRange rates
        → MayRun version life rates events → SoundState life rates (run version rates events) }
{}

/// Each event adds to the bytes of a run those of the frame that it writes, and nothing else.
pub fn events_add_bytes()
    ensures { (version : Version) (life : ℕ) (rates : List Rate) (events : List Event) (event : Event)
        → AreInRange rates → MayRun version life rates (events ++ event ∷ [])
        → out (run version rates (events ++ event ∷ []))
        ≡ out (run version rates events) ++ event_bytes (run version rates events).live event }
{}

/// Each event is counted and has one outcome.
pub fn events_are_counted()
    ensures count { (version : Version) (life : ℕ) (rates : List Rate) (events : List Event)
        → MayRun version life rates events
        → (run version rates events).live.counts.events ≡ length events }
    ensures outcome { (version : Version) (rates : List Rate) (events : List Event)
        → length (outcomes rates (empty_state version) events) ≡ length events }
{}

/// The bytes of a run are the frames of the packets that it wrote whole, and the beginning of one more. In version 1
/// each frame has numbers from 1 to 2^32 - 1 and a payload of 1 to 1490 bytes. In version 2 its payload is 1 to 9000
/// bytes, and it has the number of its flow's tariff, 1 to 8. The same bytes are the frames of no other list of
/// packets, nor, in version 2, of packets under other tariffs. Two bytes give the version.
pub fn bytes_tell_packets()
    ensures frames { (version : Version) (life : ℕ) (rates : List Rate) (events : List Event) → life < 2 ^ 32
        → AreInRange rates → MayRun version life rates events
        → AreFramesOf version (run version rates events).done (out (run version rates events)) }
    ensures unique { (version : Version) (bytes : List ℕ) (done others : List Sent)
        → AreFramesOf version done bytes → AreFramesOf version others bytes
        → sent_packets done ≡ sent_packets others }
    ensures tariffs { (bytes : List ℕ) (done others : List Sent)
        → AreFramesOf Two done bytes → AreFramesOf Two others bytes → done ≡ others }
    ensures version { (one two : List Sent) (bytes : List ℕ)
        → AreFramesOf One one bytes → AreFramesOf Two two bytes → length bytes ≤ 1 }
{}

/// The account of a flow is what its packets cost: those written whole, and the bytes of a torn one that are out. The
/// same holds of the accounts of closed flows together.
pub fn accounts_are_bills()
    ensures account { (version : Version) (life : ℕ) (rates : List Rate) (events : List Event) → AreInRange rates
        → MayRun version life rates events → (flow : ℕ) (book : Book)
        → find (is_book_of flow) (run version rates events).live.books ≡ Some book
        → book.account ≡ bill rates (run version rates events) flow }
    ensures past { (version : Version) (life : ℕ) (rates : List Rate) (events : List Event) → AreInRange rates
        → MayRun version life rates events
        → (run version rates events).live.counts.past ≡ past_bill rates (run version rates events) }
{}

/// The numbers of the packets that a flow sent rise, and none is sent twice.
pub fn numbers_rise()
    ensures rise { (version : Version) (life : ℕ) (rates : List Rate) (events : List Event) → AreInRange rates
        → MayRun version life rates events → (flow : ℕ)
        → (limit : ℕ) × Rises limit (sent_numbers flow (run version rates events).done) }
    ensures once { (version : Version) (life : ℕ) (rates : List Rate) (events : List Event) → AreInRange rates
        → MayRun version life rates events → (flow seq : ℕ)
        → length (filter (nat_eq seq) (sent_numbers flow (run version rates events).done)) ≤ 1 }
{}

/// Each accepted packet was written whole, is the torn one, waits, or was dropped when its flow was closed. A packet is
/// torn if and only if the link is broken. It stays at the head of its buffer while its flow is open.
pub fn packets_are_kept()
    ensures accepted { (version : Version) (life : ℕ) (rates : List Rate) (events : List Event) → AreInRange rates
        → MayRun version life rates events
        → (run version rates events).live.counts.accepted
        ≡ (run version rates events).live.counts.written + torn_count (run version rates events).live.broken
        + waiting (run version rates events).live + (run version rates events).live.counts.dropped }
    ensures broken { (version : Version) (life : ℕ) (rates : List Rate) (events : List Event) → AreInRange rates
        → MayRun version life rates events
        → (run version rates events).live.broken ≡ is_some (run version rates events).torn }
    ensures torn { (version : Version) (life : ℕ) (rates : List Rate) (events : List Event) → AreInRange rates
        → MayRun version life rates events → (frame : TornFrame)
        → (run version rates events).torn ≡ Some frame
        → has_number frame.head.flow (flow_numbers (run version rates events).live.graph.flows) ≡ true
        → (head_of (run version rates events).live.buffers frame.head.flow ≡ Some frame.head)
        × ((run version rates events).live.torn ≡ Some frame.head.flow) }
{}

/// The packets that an open flow accepted are, in order, those written whole and those that its buffer holds. The
/// packets of any flow, open or closed, that were written whole are the first of those that it accepted.
pub fn packets_are_sent_as_accepted()
    ensures open { (version : Version) (life : ℕ) (rates : List Rate) (events : List Event) → AreInRange rates
        → MayRun version life rates events → (flow : ℕ)
        → has_number flow (flow_numbers (run version rates events).live.graph.flows) ≡ true
        → packets_of flow (accepted_packets rates (empty_state version) events)
        ≡ packets_of flow (sent_packets (run version rates events).done)
        ++ queued_packets (run version rates events).live.buffers flow }
    ensures first { (version : Version) (life : ℕ) (rates : List Rate) (events : List Event) → AreInRange rates
        → MayRun version life rates events → (flow : ℕ)
        → (rest : List Packet)
        × (packets_of flow (accepted_packets rates (empty_state version) events)
        ≡ packets_of flow (sent_packets (run version rates events).done) ++ rest) }
{}

/// Each open flow of a run competes with exactly its tickets, and does not compete if it has none. So levelling once
/// more changes nothing.
pub fn runs_are_level()
    ensures level { (version : Version) (life : ℕ) (rates : List Rate) (events : List Event) → AreInRange rates
        → MayRun version life rates events
        → IsLevel (run version rates events).live.queue (tickets_of_all (run version rates events).live.graph) }
    ensures stays { (version : Version) (life : ℕ) (rates : List Rate) (events : List Event) → AreInRange rates
        → MayRun version life rates events
        → with_level_queue (run version rates events).live ≡ (run version rates events).live }
{}

/// The tickets of all open flows of a run are together at most the active amount of `base`.
pub fn shares_are_within_of_runs()
    ensures { (version : Version) (life : ℕ) (rates : List Rate) (events : List Event) → AreInRange rates
        → MayRun version life rates events → SharesAreWithin (run version rates events).live.graph }
{}

/// In a life of at most 2^24 events fewer than 2^38 units are charged. A pass is at most stride * (1 + units charged)
/// from the global pass. The remain of a flow that does not compete is as near to 0. Accounts stay below 2^54, and so
/// do those of closed flows together.
pub fn bounds_of_runs()
    ensures clock { (version : Version) (life : ℕ) (rates : List Rate) (events : List Event)
        → life ≤ max_life → AreInRange rates
        → MayRun version life rates events → (run version rates events).live.queue.clock < 2 ^ 38 }
    ensures near { (version : Version) (life : ℕ) (rates : List Rate) (events : List Event)
        → life ≤ max_life → AreInRange rates → MayRun version life rates events → (flow : ℕ) (client : Client)
        → get (run version rates events).live.queue.clients flow ≡ Some client
        → IsNearGlobalPass (run version rates events).live.queue client }
    ensures account { (version : Version) (life : ℕ) (rates : List Rate) (events : List Event)
        → life ≤ max_life → AreInRange rates → MayRun version life rates events → (flow : ℕ) (book : Book)
        → find (is_book_of flow) (run version rates events).live.books ≡ Some book → book.account < 2 ^ 54 }
    ensures past { (version : Version) (life : ℕ) (rates : List Rate) (events : List Event)
        → life ≤ max_life → AreInRange rates
        → MayRun version life rates events → (run version rates events).live.counts.past < 2 ^ 54 }
{}

/// Take a stretch of the events of a run that begins with no frame in part. Two flows, `one` and `other`, compete with
/// the same tickets before its first event and after each. Whole frames and a fault raise the pass of `one` in it.
/// These raises together are at most the greater of 0 and a sum of three terms. They are those of the pass of `other`,
/// the distance that this pass was ahead at the start, and the largest single charge to `one`.
pub fn shares_of_runs()
    ensures { (version : Version) (life : ℕ) (rates : List Rate) (before stretch : List Event)
        (one other one_tickets other_tickets : ℕ) → AreInRange rates
        → MayRun version life rates (before ++ stretch) → one ≢ other
        → (run version rates before).live.part ≡ None
        → KeepCompeting one other one_tickets other_tickets rates (run version rates before) stretch
        → IsWithinShare (client (run version rates before).live.queue one).pass
        (client (run version rates before).live.queue other).pass
        (stretch_charges one other rates (run version rates before) stretch) }
{}

/// Take any chain of calls on one link: commands, arrivals, turns and declared faults. Their arguments and answers may
/// be any, and each makes an event or none. No frame is in part before the first call. Two flows, `one` and `other`,
/// compete before it and after each call, and the tickets of each stay the same. By the answers of `position`, the gain
/// of `one` in the chain is at most the greater of 0 and a sum of three terms. They are the gain of `other`, the
/// distance that `other` was ahead at the start, and the largest gain of `one` in a single call.
pub fn shares_of_calls<W: TellingWriter>()
    ensures { (first : LinkView W) → AreInRange first.rates → Sound first.life first.rates first.live
        → GainsAreWithinShares W.answers first }
{}

/// While at most 2^20 of `base` is issued, in all its tickets together, the cap of 2^20 does not lower the tickets of
/// any flow. They are what the tickets that fund it are worth together.
pub fn tickets_are_uncapped_of_runs()
    ensures { (version : Version) (life : ℕ) (rates : List Rate) (events : List Event) → AreInRange rates
        → MayRun version life rates events → issued_amount (run version rates events).live.graph base ≤ 2 ^ 20
        → (flow : ℕ) → tickets (run version rates events).live.graph flow
        ≡ uncapped_tickets (run version rates events).live.graph flow }
{}

/// The promise, `Promise`, holds of every run. It does so for anyone who gives the fold's replies, holds its result,
/// and reports its bytes and the counts of its writes. The laws of recorders and of scripts say that links do.
pub fn runs_are_one_fold()
    ensures { (version : Version) (life : ℕ) (rates : List Rate) (events : List Event) (told : Told)
        → life ≤ max_life → AreInRange rates → MayRun version life rates events
        → told.bytes ≡ out (run version rates events) → filter (nat_lt 0) told.counts ≡ writes_in events
        → Promise version life rates events (outcomes rates (empty_state version) events)
        (run version rates events).live (Some told) }
{}

/// A script is a run of its events: each line makes one or none. It is of version 2 if and only if its first line is
/// `audit 2`, and otherwise of version 1. The events may follow one another, and the state and the writes of the script
/// are those of the run. A line is answered with the text of its event's outcome, or with a text of its own if it made
/// none. That is empty for a first line that chooses the version. `report` makes none: wherever it is, its text is the
/// report of what the lines before it left. So every law of runs holds of every script, whatever its lines, and
/// whichever of them lack memory.
pub fn scripts_are_runs()
    ensures follow { (life : ℕ) (rates : List Rate) (lacks : List Bool) (lines : List (List ℕ))
        → AreInRange rates
        → MayRun (version_of_script lines) life rates (events_of life rates start_of_script lacks lines) }
    ensures state { (life : ℕ) (rates : List Rate) (lacks : List Bool) (lines : List (List ℕ))
        → (after life rates start_of_script lacks lines).state
        ≡ run (version_of_script lines) rates (events_of life rates start_of_script lacks lines) }
    ensures writes { (life : ℕ) (rates : List Rate) (lacks : List Bool) (lines : List (List ℕ))
        → (after life rates start_of_script lacks lines).writes
        ≡ writes_in (events_of life rates start_of_script lacks lines) }
    ensures texts { (life : ℕ) (rates : List Rate) (lacks : List Bool) (lines : List (List ℕ))
        → talk life rates start_of_script lacks lines
        ≡ texts_of (made_of life rates start_of_script lacks lines)
        (outcomes rates (empty_state (version_of_script lines)) (events_of life rates start_of_script lacks lines)) }
    ensures reports { (life : ℕ) (rates : List Rate) (lacks : List Bool) (lines rest : List (List ℕ))
        → (more : List ℕ)
        × (talk life rates start_of_script lacks (lines ++ codes "report" ∷ rest)
        ≡ talk life rates start_of_script lacks lines
        ++ (report (run (version_of_script lines) rates (events_of life rates start_of_script lacks lines)).live
        ++ more)) }
{}

/// A line that finds no memory says so. Take answers of which no line is `no 1 NoMemory`. They and the state are those
/// of a script that finds memory for each line.
pub fn answers_tell_lacks()
    ensures text { (life : ℕ) (rates : List Rate) (lacks : List Bool) (lines : List (List ℕ))
        → FoundMemory (talk life rates start_of_script lacks lines)
        → talk life rates start_of_script lacks lines ≡ talk life rates start_of_script [] lines }
    ensures state { (life : ℕ) (rates : List Rate) (lacks : List Bool) (lines : List (List ℕ))
        → FoundMemory (talk life rates start_of_script lacks lines)
        → after life rates start_of_script lacks lines ≡ after life rates start_of_script [] lines }
{}
