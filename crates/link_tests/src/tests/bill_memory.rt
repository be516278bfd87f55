//! Bills take memory, but none for the packets of a text of lengths. The allocator of `.ci/allocator.c` alone refuses
//! requests, and `.ci/memory` runs this test with it. With any other no bill is refused memory.

use super::assertions::{holds, same};
use super::tariffs::Four;
use share_bill::bill_text;
use share_model::allocator::WAS_REFUSED;
use share_model::{PlainReader, asks};
use std::alloc::Global;

/// One packet comes and is sent.
const FEW: &str = "lengths 2\nopen a 8 1\nmktkt 1 base\nfund 1 flow a\nsend a 9000\nturn 9017\n";

/// Seven packets come, of each length that a body could hold in another way, and the first is sent.
const MANY: &str =
    "lengths 2\nopen a 8 1\nmktkt 1 base\nfund 1 flow a\nsend a 9000\nsend a 1\nsend a 16\nsend a 17\n\
    send a 1491\nsend a 9000\nsend a 9000\nturn 9017\n";

// The number of the request at which the bill of a text is made: one more than it makes. `None` if it has no bill.
fn first_granted(alloc: Global, text: &str) -> Option<u16> {
    for request in 1..200u16 {
        let _no = asks!(alloc, request);
        let bill = bill_text(alloc, Four, PlainReader(text.as_bytes()));
        let was_refused = asks!(alloc, WAS_REFUSED);
        let is_made = bill.is_ok();
        drop(bill);
        if is_made && !was_refused {
            return Some(request);
        }
    }
    None
}

#[test]
fn waiting_packets_take_no_memory(rt: HostRuntime) {
    let few = first_granted(rt.alloc(), FEW);
    let many = first_granted(rt.alloc(), MANY);
    holds(&rt, "a bill", few.is_some());
    same(&rt, "requests", few, many);
}
