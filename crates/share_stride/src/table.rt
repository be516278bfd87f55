//! The clients of a queue by their flow numbers, in a slab.
ghost use Rattle.std.specs.Prelude.{◌≡◌, ◌<◌, ◌≤◌, ◌*◌, ◌^◌, ◌↔◌, pos, ◌-ℤ◌, Some, None, false, length, slice_set};
ghost use Rattle.std.specs.Prelude.{IsTrue, IsSome, IfSome, IfOk, is_some};
ghost use Rattle.std.specs.FinMap as map;
ghost use Rattle.share_model.specs.stride.Moves.{IsNext, stride_of, after_join, after_leave, after_charge, position};
ghost use Rattle.share_stride.specs.Fits.{IsWithin};
ghost use Rattle.share_stride.specs.Table.{no_clients, client_of, client_at, with_client_at, IsClientKeyIn};
ghost use Rattle.share_stride.specs.Table.{entry_of};
ghost use Rattle.share_stride.specs.Heap.{standing_under};

use crate::client;
use crate::heap::Heap;
use crate::index::Index;
use crate::seating::HeapEntry;
use share_base::FlowNo;
use share_model::Client;
use slab::Slab;
use std::alloc::{AllocError, Global};
use std::marker::Model;

/// The most clients that a table holds.
pub(crate) const MAX_CLIENTS: usize = 64;

#[derive(Clone, Copy, Debug)]
pub(crate) struct ClientSlot {
    flow: FlowNo,
    client: Client,
}

/// The key of a flow's client in the table.
#[derive(Clone, Copy, Debug)]
pub(crate) struct ClientKey {
    flow: FlowNo,
    key: usize,
}

/// Clients by their flow numbers. A contract sees two finite maps, from flow numbers to clients and to their keys.
#[derive(Drop)]
pub(crate) struct Table {
    slots: Slab<ClientSlot>,
    index: Index,
    heap: Heap,
}

impl Model for Table {
    ghost use Rattle.share_stride.specs.Table.{Clients, coded_clients, client_map, IsWellFormed};

    ghost Value = { Clients };

    ghost coded = { coded_clients };

    ghost view = { λ table. record { by_flow = client_map table.slots.slots; keys = table.index } };

    ghost invariant = { λ table. IsWellFormed table.slots table.index table.heap };
}

impl Table {
    /// An empty table with room for all its clients. An error if that memory was refused.
    pub(crate) fn new(alloc: Global) -> Result<Table, AllocError>
        ensures { IfOk result (λ table. table ≡ no_clients) }
    {
        let index = Index::new(alloc)?;
        let slots = Slab::with_capacity(alloc, MAX_CLIENTS)?;
        let heap = Heap::new(alloc, slots.capacity())?;
        Ok(Table { slots, index, heap })
    }

    /// The number of clients.
    pub(crate) fn len(&self) -> usize
        ensures { result ≡ map.len self.now.by_flow }
    {
        self.slots.len()
    }

    /// The key of a flow's client, if it has one.
    pub(crate) fn find(&self, flow: FlowNo) -> Option<ClientKey>
        ensures flow { IfSome result (λ client_key. client_key.flow ≡ flow) }
        ensures found { IfSome result (IsClientKeyIn self.now) }
        ensures there { IsSome result ↔ IsSome (map.get self.now.by_flow flow) }
    {
        match self.index.get(flow) {
            None => None,
            Some(key) => Some(ClientKey { flow, key }),
        }
    }

    /// The client of a key.
    pub(crate) fn at(&self, client_key: &ClientKey) -> Client
        requires { IsClientKeyIn self.now client_key.now }
        ensures { Some result ≡ map.get self.now.by_flow client_key.now.flow }
    {
        match self.slots.get(client_key.key) {
            None => unreachable!(),
            Some(slot) => slot.client,
        }
    }

    /// Makes the client of a key, which does not compete, join with these tickets.
    pub(crate) fn enter(&mut self, client_key: ClientKey, global_pass: u128, tickets: u32)
        requires client_key { IsClientKeyIn self.old client_key }
        requires idle { (client_at self.old client_key).competes ≡ false }
        requires some { 0 < tickets }
        requires pass { global_pass ≤ 2 ^ 80 }
        requires stride { (client_at self.old client_key).stride
            ≡ stride_of (client_at self.old client_key).tickets }
        requires remain { IsWithin (client_at self.old client_key).remain
            ((client_at self.old client_key).stride * 2 ^ 41) }
        ensures { self.new
            ≡ with_client_at self.old client_key (after_join global_pass (client_at self.old client_key) tickets) }
    {
        match self.slots.get_mut(client_key.key) {
            None => unreachable!(),
            Some(slot) => {
                slot.client = client::after_join(global_pass, &slot.client, tickets);
                self.heap.enter(HeapEntry {
                    pass: slot.client.pass,
                    flow: slot.flow,
                    key: client_key.key,
                });
            }
        }
    }

    /// Makes the client of a key, which competes, leave, and gives its tickets.
    pub(crate) fn leave(&mut self, client_key: ClientKey, global_pass: u128) -> u32
        requires client_key { IsClientKeyIn self.old client_key }
        requires competes { IsTrue (client_at self.old client_key).competes }
        requires pass { global_pass ≤ 2 ^ 80 }
        requires distance { IsWithin ((client_at self.old client_key).pass -ℤ pos global_pass) (2 ^ 81) }
        ensures tickets { result ≡ (client_at self.old client_key).tickets }
        ensures left { self.new
            ≡ with_client_at self.old client_key (after_leave global_pass (client_at self.old client_key)) }
    {
        match self.slots.get_mut(client_key.key) {
            None => unreachable!(),
            Some(slot) => {
                slot.client = client::after_leave(global_pass, &slot.client);
                let tickets = slot.client.tickets;
                self.heap.leave(client_key.key);
                tickets
            }
        }
    }

    /// Changes the tickets of the client of a key, which competes: it leaves, and joins with these. Gives those that
    /// it had.
    pub(crate) fn modify(&mut self, client_key: ClientKey, global_pass: u128, tickets: u32) -> u32
        requires client_key { IsClientKeyIn self.old client_key }
        requires competes { IsTrue (client_at self.old client_key).competes }
        requires some { 0 < tickets }
        requires pass { global_pass ≤ 2 ^ 80 }
        requires stride { (client_at self.old client_key).stride
            ≡ stride_of (client_at self.old client_key).tickets }
        requires distance { IsWithin ((client_at self.old client_key).pass -ℤ pos global_pass)
            ((client_at self.old client_key).stride * 2 ^ 41) }
        ensures tickets { result ≡ (client_at self.old client_key).tickets }
        ensures modified { self.new ≡ with_client_at self.old client_key
            (after_join global_pass (after_leave global_pass (client_at self.old client_key)) tickets) }
    {
        match self.slots.get_mut(client_key.key) {
            None => unreachable!(),
            Some(slot) => {
                let before = slot.client.tickets;
                let client = client::after_leave(global_pass, &slot.client);
                slot.client = client::after_join(global_pass, &client, tickets);
                shift(&mut self.heap, slot, client_key.key);
                before
            }
        }
    }

    /// Charges the client of a key these units.
    pub(crate) fn charge(&mut self, client_key: ClientKey, units: u64)
        requires client_key { IsClientKeyIn self.old client_key }
        requires units { units ≤ 2 ^ 40 }
        requires stride { (client_at self.old client_key).stride ≤ 2 ^ 40 }
        requires fits { IsWithin (position (client_at self.old client_key)).place (2 ^ 83) }
        ensures { self.new
            ≡ with_client_at self.old client_key (after_charge (client_at self.old client_key) units) }
    {
        match self.slots.get_mut(client_key.key) {
            None => unreachable!(),
            Some(slot) => {
                slot.client = client::after_charge(&slot.client, units);
                shift(&mut self.heap, slot, client_key.key);
            }
        }
    }

    /// Adds a client, which does not compete, for a flow that has none, while there are fewer than 64.
    pub(crate) fn add(&mut self, flow: FlowNo, client: Client)
        requires absent { map.get self.old.by_flow flow ≡ None }
        requires idle { client.competes ≡ false }
        requires room { map.len self.old.by_flow < MAX_CLIENTS }
        ensures { self.new.by_flow ≡ map.insert self.old.by_flow flow client }
    {
        let key = self.slots.insert_reserved(ClientSlot { flow, client });
        self.index.insert(flow, key);
    }

    /// Removes the client of a flow, which does not compete.
    pub(crate) fn remove(&mut self, flow: FlowNo)
        requires there { IsSome (map.get self.old.by_flow flow) }
        requires idle { (client_of self.old.by_flow flow).competes ≡ false }
        ensures { self.new.by_flow ≡ map.remove self.old.by_flow flow }
    {
        match self.index.remove(flow) {
            None => unreachable!(),
            Some(key) => {
                self.slots.try_remove(key);
            }
        }
    }

    /// The next flow.
    pub(crate) fn least(&self) -> Option<FlowNo>
        ensures { IsNext self.now.by_flow result }
    {
        match self.heap.first() {
            None => None,
            Some(entry) => Some(entry.flow),
        }
    }
}

// If the client competes, brings its entry of the heap to its pass.
fn shift(heap: &mut Heap, slot: &ClientSlot, key: usize)
    requires key { key < length heap.old }
    requires stands { is_some (standing_under heap.old key) ≡ slot.now.client.competes }
    ensures { heap.new ≡ slice_set heap.old key (entry_of key slot.now) }
{
    if slot.client.competes {
        heap.shift(HeapEntry {
            pass: slot.client.pass,
            flow: slot.flow,
            key,
        });
    }
}
