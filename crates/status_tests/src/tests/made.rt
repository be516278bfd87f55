//! Statuses.

use crate::tests::assertions::name_of;
use share_catalog::Time;
use share_gateway::Grant;
use share_status::{
    DiskStatus, DownlinkState, DownlinkStatus, Status, TenantStatus, UplinkState, UplinkStatus,
};
use std::net::SocketAddr;
use std::process::Abort;

/// The address that is spelled so.
pub(super) fn address(rt: &impl Abort, text: &str) -> SocketAddr {
    text.parse::<SocketAddr>().expect(rt, "an address")
}

/// A tenant with these grants.
pub(super) fn acme<'a>(rt: &impl Abort, grants: &'a [Grant]) -> TenantStatus<'a> {
    TenantStatus {
        name: name_of(rt, "acme"),
        flow: 1,
        held: false,
        tickets: 250,
        grants,
        waiting: 3,
        limit: 256,
        taken_packets: 13,
        taken_bytes: 9100,
        sent_packets: 10,
        sent_bytes: 7170,
        amount: 1280,
        connections: 2,
        dropped: 4,
        lost: 5,
    }
}

/// A tenant that is held, and has none of these grants.
pub(super) fn held_tenant<'a>(rt: &impl Abort, grants: &'a [Grant]) -> TenantStatus<'a> {
    TenantStatus {
        name: name_of(rt, "b-2_x"),
        flow: 1024,
        held: true,
        tickets: 0,
        grants: &grants[grants.len()..],
        waiting: 0,
        limit: 1,
        taken_packets: 0,
        taken_bytes: 0,
        sent_packets: 0,
        sent_bytes: 0,
        amount: 0,
        connections: 0,
        dropped: 0,
        lost: 18446744073709551615,
    }
}

/// The status of a gateway with all parts.
pub(super) fn whole<'a>(rt: &impl Abort, tenants: &'a [TenantStatus<'a>]) -> Status<'a> {
    Status {
        version: "1.2.3",
        proved: "rattle 0.9",
        book: 42,
        events: 131,
        left: 16777085,
        opened: Time::new(2026, 1, 31, 23, 59, 59).expect(rt, "a time"),
        uplink: Some(UplinkStatus {
            state: UplinkState::Up,
            address: address(rt, "192.0.2.7:7003"),
            sent: 1000000,
            outbox: 65536,
            lost: 17,
        }),
        rate: Some(2500000),
        disk: DiskStatus {
            waiting: 512,
            fault: None,
        },
        tenants,
        downlink: Some(DownlinkStatus {
            state: DownlinkState::Listening,
            address: address(rt, "[2001:db8::1]:7003"),
            frames: 7,
            bytes: 8000,
            strangers: 1,
        }),
    }
}

/// The status of a gateway that has no part which it need not have, and whose disk fails with this fault.
pub(super) fn little<'a>(rt: &impl Abort, fault: &'a str) -> Status<'a> {
    Status {
        version: "",
        proved: "",
        book: 1,
        events: 0,
        left: 0,
        opened: Time::new(0, 1, 1, 0, 0, 0).expect(rt, "a time"),
        uplink: None,
        rate: None,
        disk: DiskStatus {
            waiting: 18446744073709551615,
            fault: Some(fault),
        },
        tenants: &[],
        downlink: None,
    }
}
