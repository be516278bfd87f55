//! The queue of all clients.
ghost use Rattle.std.specs.Prelude.{◌≡◌, ◌+◌, ◌^◌, ◌<◌, ◌≤◌, ◌↔◌, false, IsTrue, IsSome, IfOk, IfErr, OnOk};
ghost use Rattle.std.specs.FinMap as map;
ghost use Rattle.share_model.specs.stride.Moves.{empty_queue, add_refusal, global_part, next, IsNext};
ghost use Rattle.share_model.specs.stride.Moves.{client as model_client, position as model_position};
ghost use Rattle.share_model.specs.stride.Moves.{add as model_add, remove as model_remove};
ghost use Rattle.share_model.specs.stride.Moves.{join as model_join, leave as model_leave, modify as model_modify};
ghost use Rattle.share_model.specs.stride.Moves.{charge as model_charge};
ghost use Rattle.share_model.specs.stride.Level.{level_one};
ghost use Rattle.share_model.specs.stride.Bound.{IsSound, IsNearGlobalPass};

use crate::cached_stride::CachedStride;
use crate::table::{MAX_CLIENTS, Table};
use crate::{client, moves};
use share_base::{FlowNo, Refusal};
use share_model::{GlobalPart, Position};
use std::alloc::Global;
use std::marker::Model;

/// The clients of a link, of which those that compete are served in proportion to their tickets. A contract sees
/// the clients by their flow numbers, the global pass and the clock.
///
/// A client that has competed has 1 to 2^20 tickets, and a stride of 2^40 divided by them, rounded down. A new one has
/// no tickets, and the stride 0. A charge of `u` units adds `stride * u / 1024`, rounded down, to a client's pass while
/// it competes. While it does not, it adds that to its remain. The remain is the distance that the pass was ahead of
/// the global pass when the client left. The global pass is that of a client with all tickets of those that compete.
/// The clock counts the units that all clients were charged.
pub struct Queue {
    clients: Table,
    global: GlobalPart,
    cached: CachedStride,
}

impl Drop for Queue {
    fn drop(self) {
        let Queue {
            clients,
            global: _,
            cached,
        } = self;
        drop(clients);
        drop(cached);
    }
}

impl Model for Queue {
    ghost use Rattle.share_model.specs.stride.Moves.{Stride, coded_stride};
    ghost use Rattle.share_stride.specs.Queue.{state_of, AreInStep};

    ghost Value = { Stride };

    ghost coded = { coded_stride };

    ghost view = { λ queue. state_of queue.clients queue.global };

    ghost invariant = { λ queue. AreInStep queue.clients queue.global };
}

impl Queue {
    /// An empty queue with room for 64 clients, its clock at 0. `NoMemory` if the memory for that room is refused. No
    /// later call takes memory.
    pub fn new(alloc: Global) -> Result<Queue, Refusal>
        ensures ok { IfOk result (λ queue. queue ≡ empty_queue) }
        ensures refused { IfErr result (λ e. e ≡ Refusal.NoMemory) }
    {
        Ok(Queue {
            clients: Table::new(alloc)?,
            global: GlobalPart {
                tickets: 0,
                pass: 0,
                last: 0,
                clock: 0,
            },
            cached: CachedStride::new(),
        })
    }

    /// Adds the client of a flow that has none. It has no tickets and does not compete. `TableFull` if there are 64
    /// clients already; then nothing changes.
    pub fn add(&mut self, flow: FlowNo) -> Result<(), Refusal>
        requires { map.get self.old.clients flow ≡ None }
        ensures ok { OnOk result
            ((self.new ≡ model_add self.old flow) × (add_refusal self.old ≡ None)) }
        ensures refused { IfErr result
            (λ e. (self.new ≡ self.old) × (add_refusal self.old ≡ Some e)) }
    {
        if self.clients.len() >= MAX_CLIENTS {
            return Err(Refusal::TableFull);
        }
        self.clients.add(flow, client::new_client());
        Ok(())
    }

    /// Makes a client that does not compete join with 1 to 2^20 tickets. Its pass is the global pass plus its remain,
    /// which is multiplied by the new stride and divided by the old one, rounded down. The first remain of a client is
    /// its stride. It never fails.
    pub fn join(&mut self, flow: FlowNo, tickets: u32)
        requires there { IsSome (map.get self.old.clients flow) }
        requires idle { (model_client self.old flow).competes ≡ false }
        requires some { 0 < tickets }
        requires few { tickets ≤ 2 ^ 20 }
        ensures { self.new ≡ model_join self.old flow tickets }
    {
        match self.clients.find(flow) {
            None => unreachable!(),
            Some(key) => moves::join(
                &mut self.clients,
                &mut self.global,
                &mut self.cached,
                key,
                tickets,
            ),
        }
    }

    /// Makes a client that competes leave. It keeps its tickets and its stride. Its remain is the distance that its
    /// pass is ahead of the global pass, below zero if it is behind. It never fails.
    pub fn leave(&mut self, flow: FlowNo)
        requires there { IsSome (map.get self.old.clients flow) }
        requires competes { IsTrue (model_client self.old flow).competes }
        ensures { self.new ≡ model_leave self.old flow }
    {
        match self.clients.find(flow) {
            None => unreachable!(),
            Some(key) => moves::leave(&mut self.clients, &mut self.global, &mut self.cached, key),
        }
    }

    /// Changes the tickets of a client that competes, to 1 to 2^20: it leaves, and joins with these. It never fails.
    pub fn modify(&mut self, flow: FlowNo, tickets: u32)
        requires there { IsSome (map.get self.old.clients flow) }
        requires competes { IsTrue (model_client self.old flow).competes }
        requires some { 0 < tickets }
        requires few { tickets ≤ 2 ^ 20 }
        ensures { self.new ≡ model_modify self.old flow tickets }
    {
        match self.clients.find(flow) {
            None => unreachable!(),
            Some(key) => moves::modify(
                &mut self.clients,
                &mut self.global,
                &mut self.cached,
                key,
                tickets,
            ),
        }
    }

    /// Levels a client: afterwards it competes with these tickets, at most 2^20, or does not compete if they are 0.
    /// It joins, leaves or changes its tickets only if it has to; otherwise nothing changes. It never fails.
    pub fn level(&mut self, flow: FlowNo, tickets: u32)
        requires there { IsSome (map.get self.old.clients flow) }
        requires few { tickets ≤ 2 ^ 20 }
        ensures { self.new ≡ level_one self.old flow tickets }
    {
        match self.clients.find(flow) {
            None => unreachable!(),
            Some(key) => {
                let client = self.clients.at(&key);
                if !client.competes && tickets > 0 {
                    moves::join(
                        &mut self.clients,
                        &mut self.global,
                        &mut self.cached,
                        key,
                        tickets,
                    );
                } else if client.competes && tickets == 0 {
                    moves::leave(&mut self.clients, &mut self.global, &mut self.cached, key);
                } else if client.competes && client.tickets != tickets {
                    moves::modify(
                        &mut self.clients,
                        &mut self.global,
                        &mut self.cached,
                        key,
                        tickets,
                    );
                }
            }
        }
    }

    /// Charges a client these units, whether it competes or not, and moves the clock on by them, to 2^40 at most. The
    /// client's pass or remain grows by `stride * units / 1024`, rounded down. It never fails.
    pub fn charge(&mut self, flow: FlowNo, units: u64)
        requires there { IsSome (map.get self.old.clients flow) }
        requires clock { self.old.clock + units ≤ 2 ^ 40 }
        ensures { self.new ≡ model_charge self.old flow units }
    {
        match self.clients.find(flow) {
            None => unreachable!(),
            Some(key) => moves::charge(&mut self.clients, &mut self.global, key, units),
        }
    }

    /// Removes a client that does not compete. Its charges stay in the clock. It never fails.
    pub fn remove(&mut self, flow: FlowNo)
        requires there { IsSome (map.get self.old.clients flow) }
        requires idle { (model_client self.old flow).competes ≡ false }
        ensures { self.new ≡ model_remove self.old flow }
    {
        self.clients.remove(flow);
    }

    /// The next flow: of those that compete, that with the least pass, and of equal passes that with the least number.
    /// `None` if no client competes.
    pub fn least(&self) -> Option<FlowNo>
        ensures next { result ≡ next self.now.clients }
        ensures first { IsNext self.now.clients result }
    {
        self.clients.least()
    }

    /// Whether the flow has a client, whether it competes or not.
    pub fn contains(&self, flow: FlowNo) -> bool
        ensures { IsTrue result ↔ IsSome (map.get self.now.clients flow) }
    {
        self.clients.find(flow).is_some()
    }

    /// The readings of the client of a flow: its tickets, its stride, and its pass if it competes, otherwise
    /// its remain.
    pub fn position(&self, flow: FlowNo) -> Position
        requires { IsSome (map.get self.now.clients flow) }
        ensures value { result ≡ model_position (model_client self.now flow) }

        // Its pass is at most stride * (1 + clock) from the global pass, or its remain from zero.
        ensures near { IsNearGlobalPass self.now (model_client self.now flow) }
    {
        match self.clients.find(flow) {
            None => unreachable!(),
            Some(key) => client::position(&self.clients.at(&key)),
        }
    }

    /// The values that all clients share. They are the tickets of those that compete, the global pass, the clock at its
    /// last update, and the clock, in units. Each join and each leave updates the global pass.
    pub fn global(&self) -> GlobalPart
        ensures value { result ≡ global_part self.now }

        // Every client is within its bound, and the clock is at most 2^40.
        ensures sound { IsSound self.now }
    {
        self.global
    }
}
