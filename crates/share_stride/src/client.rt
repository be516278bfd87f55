//! A move changes one client.
ghost use Rattle.std.specs.Prelude.{◌≡◌, ◌*◌, ◌/◌, ◌^◌, ◌<◌, ◌≤◌, pos, ◌-ℤ◌};
ghost use Rattle.share_model.specs.stride.Moves.{stride_of, new_client as model_new_client};
ghost use Rattle.share_model.specs.stride.Moves.{remain_on as model_remain_on};
ghost use Rattle.share_model.specs.stride.Moves.{floor_div};
ghost use Rattle.share_model.specs.stride.Moves.{after_join as model_after_join, after_leave as model_after_leave};
ghost use Rattle.share_model.specs.stride.Moves.{after_charge as model_after_charge};
ghost use Rattle.share_model.specs.stride.Moves.{position as model_position};
ghost use Rattle.share_stride.specs.Fits.{IsWithin};

use share_model::{Client, Position};

/// The scale of strides.
const STRIDE_SCALE: u64 = 1 << 40;

/// The number of units that a client is charged per stride.
const QUANTUM: u128 = 1024;

/// A client that never competed.
pub(crate) fn new_client() -> Client
    ensures { result ≡ model_new_client }
{
    Client {
        tickets: 0,
        stride: 0,
        remain: 0,
        pass: 0,
        competes: false,
    }
}

/// The stride of these tickets; 0 if there are none.
pub(crate) fn stride_of(tickets: u64) -> u64
    ensures { result ≡ stride_of tickets }
{
    if tickets == 0 {
        0
    } else {
        STRIDE_SCALE / tickets
    }
}

/// The part of a charge that is added to a pass.
pub(crate) fn share(stride: u64, units: u64) -> u128
    ensures { result ≡ stride * units / QUANTUM }
{
    u128::from(stride) * u128::from(units) / QUANTUM
}

// The quotient. Most numbers have at most 64 bits, and such a division is faster than one of 128 bits.
fn quotient(number: u128, by: u64) -> u128
    requires { 0 < by }
    ensures { result ≡ number / by }
{
    match u64::try_from(number) {
        Ok(small) => u128::from(small / by),
        Err(_) => number / u128::from(by),
    }
}

// The quotient, rounded down.
fn floor_quotient(number: i128, by: u64) -> i128
    requires { 0 < by }
    ensures { result ≡ floor_div number by }
{
    if number >= 0 {
        quotient(number as u128, by) as i128
    } else {
        -1 - quotient((-1 - number) as u128, by) as i128
    }
}

// The remain on a new stride, rounded down. If there was no stride before, it is the new stride.
fn remain_on(new_stride: u64, old_stride: u64, remain: i128) -> i128
    requires new { new_stride ≤ 2 ^ 40 }
    requires old { old_stride ≤ 2 ^ 40 }
    requires remain { IsWithin remain (old_stride * 2 ^ 41) }
    ensures near { IsWithin result (new_stride * 2 ^ 41) }
    ensures value { result ≡ model_remain_on new_stride old_stride remain }
{
    if old_stride == 0 {
        i128::from(new_stride)
    } else if old_stride == new_stride {
        remain
    } else {
        floor_quotient(remain * i128::from(new_stride), old_stride)
    }
}

// The stride of these tickets, without a division if the client has as many.
fn new_stride(client: &Client, tickets: u32) -> u64
    requires { client.now.stride ≡ stride_of client.now.tickets }
    ensures { result ≡ stride_of tickets }
{
    if client.tickets == tickets {
        client.stride
    } else {
        stride_of(u64::from(tickets))
    }
}

/// The client after it joins with these tickets.
pub(crate) fn after_join(global_pass: u128, client: &Client, tickets: u32) -> Client
    requires some { 0 < tickets }
    requires pass { global_pass ≤ 2 ^ 80 }
    requires stride { client.now.stride ≡ stride_of client.now.tickets }
    requires remain { IsWithin client.now.remain (client.now.stride * 2 ^ 41) }
    ensures { result ≡ model_after_join global_pass client.now tickets }
{
    let stride = new_stride(client, tickets);
    let remain = remain_on(stride, client.stride, client.remain);
    Client {
        tickets,
        stride,
        remain,
        pass: global_pass as i128 + remain,
        competes: true,
    }
}

/// The client after it leaves.
pub(crate) fn after_leave(global_pass: u128, client: &Client) -> Client
    requires pass { global_pass ≤ 2 ^ 80 }
    requires distance { IsWithin (client.now.pass -ℤ pos global_pass) (2 ^ 81) }
    ensures { result ≡ model_after_leave global_pass client.now }
{
    Client {
        remain: client.pass - global_pass as i128,
        competes: false,
        ..*client
    }
}

/// The client after a charge.
pub(crate) fn after_charge(client: &Client, units: u64) -> Client
    requires units { units ≤ 2 ^ 40 }
    requires stride { client.now.stride ≤ 2 ^ 40 }
    requires place { IsWithin (model_position client.now).place (2 ^ 83) }
    ensures { result ≡ model_after_charge client.now units }
{
    let share = share(client.stride, units) as i128;
    let mut charged = *client;
    if client.competes {
        charged.pass += share;
    } else {
        charged.remain += share;
    }
    charged
}

/// The readings of a client.
pub(crate) fn position(client: &Client) -> Position
    ensures { result ≡ model_position client.now }
{
    Position {
        competing: client.competes,
        tickets: client.tickets,
        stride: client.stride,
        place: if client.competes {
            client.pass
        } else {
            client.remain
        },
    }
}
