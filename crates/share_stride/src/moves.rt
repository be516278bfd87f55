//! The moves of the client of a key. Each changes the client and what all clients share.
ghost use Rattle.std.specs.Prelude.{◌≡◌, ◌+◌, ◌^◌, ◌<◌, ◌≤◌, false, IsTrue, IsSome};
ghost use Rattle.std.specs.FinMap as map;
ghost use Rattle.share_model.specs.stride.Moves.{join as model_join, leave as model_leave, modify as model_modify};
ghost use Rattle.share_model.specs.stride.Moves.{charge as model_charge};
ghost use Rattle.share_stride.specs.Table.{IsClientKeyIn, client_at};
ghost use Rattle.share_stride.specs.Queue.{state_of, AreInStep, after_update};

use crate::cached_stride::CachedStride;
use crate::client;
use crate::table::{ClientKey, Table};
use share_model::GlobalPart;

// Moves the global pass on by what was charged since the last update. When many clients are levelled at once, that is
// mostly nothing.
fn update(global: &mut GlobalPart, cached: &mut CachedStride)
    requires time { global.old.last ≤ global.old.clock }
    requires pass { global.old.pass ≤ 2 ^ 80 }
    ensures { global.new ≡ after_update global.old }
{
    if global.last == global.clock {
        return;
    }
    let stride = cached.of(global.tickets);
    global.pass += client::share(stride, global.clock - global.last);
    global.last = global.clock;
}

/// Makes a client that does not compete join with these tickets.
pub(crate) fn join(
    clients: &mut Table,
    global: &mut GlobalPart,
    cached: &mut CachedStride,
    client_key: ClientKey,
    tickets: u32,
)
    requires client_key { IsClientKeyIn clients.old client_key }
    requires there { IsSome (map.get clients.old.by_flow client_key.flow) }
    requires kept { AreInStep clients.old global.old }
    requires idle { (client_at clients.old client_key).competes ≡ false }
    requires some { 0 < tickets }
    requires few { tickets ≤ 2 ^ 20 }
    ensures kept { AreInStep clients.new global.new }
    ensures joined { state_of clients.new global.new
        ≡ model_join (state_of clients.old global.old) client_key.flow tickets }
{
    update(global, cached);
    clients.enter(client_key, global.pass, tickets);
    global.tickets += u64::from(tickets);
}

/// Makes a client that competes leave.
pub(crate) fn leave(
    clients: &mut Table,
    global: &mut GlobalPart,
    cached: &mut CachedStride,
    client_key: ClientKey,
)
    requires client_key { IsClientKeyIn clients.old client_key }
    requires there { IsSome (map.get clients.old.by_flow client_key.flow) }
    requires kept { AreInStep clients.old global.old }
    requires competes { IsTrue (client_at clients.old client_key).competes }
    ensures kept { AreInStep clients.new global.new }
    ensures left { state_of clients.new global.new
        ≡ model_leave (state_of clients.old global.old) client_key.flow }
{
    update(global, cached);
    global.tickets -= u64::from(clients.leave(client_key, global.pass));
}

/// Changes the tickets of a client that competes.
pub(crate) fn modify(
    clients: &mut Table,
    global: &mut GlobalPart,
    cached: &mut CachedStride,
    client_key: ClientKey,
    tickets: u32,
)
    requires client_key { IsClientKeyIn clients.old client_key }
    requires there { IsSome (map.get clients.old.by_flow client_key.flow) }
    requires kept { AreInStep clients.old global.old }
    requires competes { IsTrue (client_at clients.old client_key).competes }
    requires some { 0 < tickets }
    requires few { tickets ≤ 2 ^ 20 }
    ensures kept { AreInStep clients.new global.new }
    ensures modified { state_of clients.new global.new
        ≡ model_modify (state_of clients.old global.old) client_key.flow tickets }
{
    update(global, cached);
    let before = clients.modify(client_key, global.pass, tickets);
    global.tickets = global.tickets - u64::from(before) + u64::from(tickets);
}

/// Charges a client these units, and moves the clock on by them.
pub(crate) fn charge(
    clients: &mut Table,
    global: &mut GlobalPart,
    client_key: ClientKey,
    units: u64,
)
    requires client_key { IsClientKeyIn clients.old client_key }
    requires there { IsSome (map.get clients.old.by_flow client_key.flow) }
    requires kept { AreInStep clients.old global.old }
    requires clock { global.old.clock + units ≤ 2 ^ 40 }
    ensures kept { AreInStep clients.new global.new }
    ensures charged { state_of clients.new global.new
        ≡ model_charge (state_of clients.old global.old) client_key.flow units }
{
    clients.charge(client_key, units);
    global.clock += units;
}
