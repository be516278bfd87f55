//! The state of a gateway.

use share_base::Name;
use share_catalog::Time;
use share_gateway::Grant;
use std::net::SocketAddr;

/// Whether the uplink is connected, or is dialled.
#[derive(Clone, Copy, Debug, PartialEq, Eq)]
pub enum UplinkState {
    Up,
    Dialling,
}

/// The state of the uplink. Its numbers count bytes.
#[derive(Clone, Copy, Debug)]
pub struct UplinkStatus {
    pub state: UplinkState,
    pub address: SocketAddr,
    /// The frames that the sockets of the uplink took.
    pub sent: u64,
    /// The frames that were scheduled, and that the socket has not taken yet.
    pub outbox: u64,
    /// The frames that may have been lost with connections of the uplink.
    pub lost: u64,
}

/// The state of the disk: the bytes of text that wait for it, and why it fails, if it does.
#[derive(Clone, Copy, Debug)]
pub struct DiskStatus<'a> {
    pub waiting: u64,
    pub fault: Option<&'a str>,
}

/// The state of a tenant.
#[derive(Clone, Copy, Debug)]
pub struct TenantStatus<'a> {
    pub name: Name,
    pub flow: u32,
    pub held: bool,
    /// The worth of its grants.
    pub tickets: u32,
    pub grants: &'a [Grant],
    /// The number of its packets that wait.
    pub waiting: u32,
    /// The number of packets that its buffer holds.
    pub limit: u64,
    pub taken_packets: u64,
    pub taken_bytes: u64,
    pub sent_packets: u64,
    pub sent_bytes: u64,
    /// Its account in the open book.
    pub amount: u64,
    pub connections: u64,
    /// The number of packets that its ports dropped.
    pub dropped: u64,
    /// The number of packets from the downlink that its ports lost.
    pub lost: u64,
}

/// Whether a gateway is connected to the downlink, or none is.
#[derive(Clone, Copy, Debug, PartialEq, Eq)]
pub enum DownlinkState {
    Up,
    Listening,
}

/// The state of the downlink.
#[derive(Clone, Copy, Debug)]
pub struct DownlinkStatus {
    pub state: DownlinkState,
    pub address: SocketAddr,
    pub frames: u64,
    pub bytes: u64,
    /// The number of frames that had the number of no tenant.
    pub strangers: u64,
}

/// The state of a gateway.
#[derive(Clone, Copy, Debug)]
pub struct Status<'a> {
    pub version: &'a str,
    /// The toolchain that proved the program.
    pub proved: &'a str,
    /// The number of the open book.
    pub book: u64,
    /// The number of events that the open book has.
    pub events: u64,
    /// The number of events left of its life.
    pub left: u64,
    /// The time at which the open book was opened.
    pub opened: Time,
    pub uplink: Option<UplinkStatus>,
    /// Bytes of frames a second, if they are limited.
    pub rate: Option<u64>,
    pub disk: DiskStatus<'a>,
    pub tenants: &'a [TenantStatus<'a>],
    pub downlink: Option<DownlinkStatus>,
}
