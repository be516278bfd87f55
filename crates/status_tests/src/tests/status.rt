//! Lines of a status.

use crate::tests::assertions::{name_of, same};
use crate::tests::made::{acme, address, held_tenant, little, whole};
use share_catalog::Time;
use share_gateway::Grant;
use share_status::{
    DiskStatus, DownlinkState, DownlinkStatus, Status, UplinkState, UplinkStatus, status_text,
};
use std::alloc::Global;
use std::process::Abort;
use std::str;
use std::test::Fail;

/// All parts are there.
const WHOLE: &str = "{\"version\":\"1.2.3\",\"proved\":\"rattle 0.9\",\"book\":42,\"events\":131,\
    \"left\":16777085,\"opened\":\"2026-01-31T23:59:59Z\",\
    \"uplink\":{\"state\":\"up\",\"address\":\"192.0.2.7:7003\",\"sent\":1000000,\"outbox\":65536,\"lost\":17},\
    \"rate\":2500000,\"disk\":{\"waiting\":512,\"fault\":null},\
    \"tenants\":[{\"name\":\"acme\",\"flow\":1,\"held\":false,\"tickets\":250,\
    \"grants\":[{\"amount\":200,\"of\":\"gold\"},{\"amount\":50,\"of\":\"base\"}],\
    \"waiting\":3,\"limit\":256,\"taken_packets\":13,\"taken_bytes\":9100,\"sent_packets\":10,\"sent_bytes\":7170,\
    \"amount\":1280,\"connections\":2,\"dropped\":4,\"lost\":5},\
    {\"name\":\"b-2_x\",\"flow\":1024,\"held\":true,\"tickets\":0,\"grants\":[],\
    \"waiting\":0,\"limit\":1,\"taken_packets\":0,\"taken_bytes\":0,\"sent_packets\":0,\"sent_bytes\":0,\
    \"amount\":0,\"connections\":0,\"dropped\":0,\"lost\":18446744073709551615}],\
    \"downlink\":{\"state\":\"listening\",\"address\":\"[2001:db8::1]:7003\",\"frames\":7,\"bytes\":8000,\
    \"strangers\":1}}\n";

/// Nothing is there that need not be, and the fault of the disk has characters that are escaped.
const LITTLE: &str = "{\"version\":\"\",\"proved\":\"\",\"book\":1,\"events\":0,\"left\":0,\
    \"opened\":\"0000-01-01T00:00:00Z\",\"uplink\":null,\"rate\":null,\
    \"disk\":{\"waiting\":18446744073709551615,\"fault\":\"a \\\"b\\\" \\\\ /\\n\\t\\u0000\\u001b\u{7f} \u{e9}\"},\
    \"tenants\":[],\"downlink\":null}\n";

/// The uplink is dialled, and a gateway is connected to the downlink.
const DIALLED: &str = "{\"version\":\"1\",\"proved\":\"2\",\"book\":3,\"events\":4,\"left\":5,\
    \"opened\":\"9999-12-31T23:59:59Z\",\
    \"uplink\":{\"state\":\"dialling\",\"address\":\"[::1]:1\",\"sent\":6,\"outbox\":7,\"lost\":8},\"rate\":9,\
    \"disk\":{\"waiting\":10,\"fault\":\"full\"},\"tenants\":[],\
    \"downlink\":{\"state\":\"up\",\"address\":\"192.0.2.1:65535\",\"frames\":11,\"bytes\":12,\"strangers\":13}}\n";

fn compare(rt: &impl Abort, alloc: Global, row: &str, status: &Status<'_>, wanted: &str) {
    let line = status_text(alloc, status).ok().expect(rt, "memory");
    same(rt, row, str::from_utf8(line.as_slice()).ok(), Some(wanted));
}

#[test]
fn whole_status_is_spelled(rt: HostRuntime) {
    let grants = [
        Grant {
            amount: 200,
            denomination: name_of(&rt, "gold"),
        },
        Grant {
            amount: 50,
            denomination: name_of(&rt, "base"),
        },
    ];
    let grants = grants.as_slice();
    let tenants = [acme(&rt, grants), held_tenant(&rt, grants)];
    let status = whole(&rt, tenants.as_slice());
    compare(&rt, rt.alloc(), "whole", &status, WHOLE);
}

#[test]
fn absent_parts_are_null(rt: HostRuntime) {
    let status = little(&rt, "a \"b\" \\ /\n\t\0\u{1b}\u{7f} \u{e9}");
    compare(&rt, rt.alloc(), "little", &status, LITTLE);
}

#[test]
fn other_states_are_spelled(rt: HostRuntime) -> Result<(), Fail> {
    let status = Status {
        version: "1",
        proved: "2",
        book: 3,
        events: 4,
        left: 5,
        opened: Time::new(9999, 12, 31, 23, 59, 59).ok_or("a time")?,
        uplink: Some(UplinkStatus {
            state: UplinkState::Dialling,
            address: address(&rt, "[::1]:1"),
            sent: 6,
            outbox: 7,
            lost: 8,
        }),
        rate: Some(9),
        disk: DiskStatus {
            waiting: 10,
            fault: Some("full"),
        },
        tenants: &[],
        downlink: Some(DownlinkStatus {
            state: DownlinkState::Up,
            address: address(&rt, "192.0.2.1:65535"),
            frames: 11,
            bytes: 12,
            strangers: 13,
        }),
    };
    compare(&rt, rt.alloc(), "dialled", &status, DIALLED);
    Ok(())
}
