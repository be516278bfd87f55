//! The text of metrics.

use crate::tests::assertions::same;
use crate::tests::made::{acme, held_tenant, little, whole};
use share_metrics::metrics_text;
use share_status::Status;
use share_web::Exposition;
use std::alloc::Global;
use std::process::Abort;
use std::str;
use std::test::Fail;

/// A gateway that is not paced, has no downlink and no tenants, and whose disk fails.
const LITTLE: &str = "# HELP stridelink_book The number of the open book\n\
    # TYPE stridelink_book gauge\nstridelink_book 1\n\
    # HELP stridelink_book_events Events of the open book\n\
    # TYPE stridelink_book_events gauge\nstridelink_book_events 0\n\
    # HELP stridelink_events_left Events that the open book has room for\n\
    # TYPE stridelink_events_left gauge\nstridelink_events_left 0\n\
    # HELP stridelink_disk_waiting_bytes Bytes of books that wait for the disk\n\
    # TYPE stridelink_disk_waiting_bytes gauge\nstridelink_disk_waiting_bytes 18446744073709551615\n\
    # HELP stridelink_disk_fails 1 if the disk fails, and 0 if it writes\n\
    # TYPE stridelink_disk_fails gauge\nstridelink_disk_fails 1\n";

/// Lines of a gateway with all parts and two tenants, in each form.
static WHOLE: [&str; 30] = [
    "\nstridelink_book 42\n",
    "\nstridelink_book_events 131\n",
    "\nstridelink_events_left 16777085\n",
    "\nstridelink_uplink_up 1\n",
    "\nstridelink_uplink_sent_bytes_total 1000000\n",
    "\nstridelink_uplink_waiting_bytes 65536\n",
    "\nstridelink_uplink_lost_bytes_total 17\n",
    "\nstridelink_uplink_limit_bytes 2500000\n",
    "\nstridelink_disk_waiting_bytes 512\n",
    "\nstridelink_disk_fails 0\n",
    "\nstridelink_downlink_up 0\n",
    "\nstridelink_downlink_frames_total 7\n",
    "\nstridelink_downlink_bytes_total 8000\n",
    "\nstridelink_downlink_strangers_total 1\n",
    "\nstridelink_tenant_tickets{tenant=\"acme\"} 250\nstridelink_tenant_tickets{tenant=\"b-2_x\"} 0\n",
    "\nstridelink_tenant_held{tenant=\"acme\"} 0\nstridelink_tenant_held{tenant=\"b-2_x\"} 1\n",
    "\nstridelink_tenant_waiting_packets{tenant=\"acme\"} 3\n",
    "\nstridelink_tenant_buffer_packets{tenant=\"acme\"} 256\n",
    "\nstridelink_tenant_taken_packets_total{tenant=\"acme\"} 13\n",
    "\nstridelink_tenant_taken_bytes_total{tenant=\"acme\"} 9100\n",
    "\nstridelink_tenant_sent_packets_total{tenant=\"acme\"} 10\n",
    "\nstridelink_tenant_sent_bytes_total{tenant=\"acme\"} 7170\n",
    "\nstridelink_tenant_book_amount{tenant=\"acme\"} 1280\n",
    "\nstridelink_tenant_connections{tenant=\"acme\"} 2\n",
    "\nstridelink_tenant_dropped_packets_total{tenant=\"acme\"} 4\n",
    "\nstridelink_tenant_lost_packets_total{tenant=\"acme\"} 5\n",
    "\nstridelink_tenant_buffer_packets{tenant=\"b-2_x\"} 1\n",
    "\nstridelink_tenant_lost_packets_total{tenant=\"b-2_x\"} 18446744073709551615\n",
    "\n# HELP stridelink_tenant_held 1 if the tenant is held, and 0 if not\n",
    "\n# TYPE stridelink_tenant_held gauge\n",
];

/// The first lines of a counter, as text and as OpenMetrics.
const PLAIN_HEAD: &str =
    "\n# HELP stridelink_tenant_sent_bytes_total Bytes of the frames of these packets\n\
    # TYPE stridelink_tenant_sent_bytes_total counter\nstridelink_tenant_sent_bytes_total{";

const OPEN_HEAD: &str =
    "\n# HELP stridelink_tenant_sent_bytes Bytes of the frames of these packets\n\
    # TYPE stridelink_tenant_sent_bytes counter\nstridelink_tenant_sent_bytes_total{";

fn text_of(rt: &impl Abort, alloc: Global, exposition: Exposition, status: &Status<'_>) -> Vec<u8> {
    metrics_text(alloc, exposition, status)
        .ok()
        .expect(rt, "memory")
}

#[test]
fn families_without_a_value_are_left_out(rt: HostRuntime) -> Result<(), Fail> {
    let status = little(&rt, "full");
    let plain = text_of(&rt, rt.alloc(), Exposition::Plain, &status);
    let text = str::from_utf8(plain.as_slice()).ok().ok_or("text")?;
    same(&rt, "begins", text.starts_with(LITTLE), true);
    same(&rt, "samples", text.contains("\nstridelink_tenant"), false);
    Ok(())
}

// Both forms of the text of the whole status have its lines.
fn have_lines(rt: &impl Abort, plain: &str, open: &str) {
    for &line in &WHOLE {
        same(rt, line, plain.contains(line), true);
        same(rt, line, open.contains(line), true);
    }
    same(rt, "plain", plain.contains(PLAIN_HEAD), true);
    same(rt, "OpenMetrics", open.contains(OPEN_HEAD), true);
    same(rt, "plain has no end", plain.contains("# EOF"), false);
    let end = "} 18446744073709551615\n# EOF\n";
    same(rt, "the last line", open.ends_with(end), true);
}

#[test]
fn whole_status_is_spelled(rt: HostRuntime) {
    let tenants = [acme(&rt, &[]), held_tenant(&rt, &[])];
    let status = whole(&rt, tenants.as_slice());
    let plain = text_of(&rt, rt.alloc(), Exposition::Plain, &status);
    let open = text_of(&rt, rt.alloc(), Exposition::OpenMetrics, &status);
    let plain = str::from_utf8(plain.as_slice()).ok().expect(&rt, "text");
    let open = str::from_utf8(open.as_slice()).ok().expect(&rt, "text");
    have_lines(&rt, plain, open);
}
