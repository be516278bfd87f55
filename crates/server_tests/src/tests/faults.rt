//! The text of each fault of the server, and of its reason.

use crate::tests::assertions::holds;
use share_server::{Reason, RunFault, ServeFault};
use std::alloc::Global;
use std::io::{Error, ErrorKind};

/// Each fault, and its text.
static FAULTS: [(ServeFault, &str); 10] = [
    (ServeFault::Accept, "cannot accept a connection"),
    (ServeFault::Thread, "cannot start a worker"),
    (ServeFault::Uplink, "the uplink failed"),
    (ServeFault::Life, "the life is spent"),
    (ServeFault::Unsent, "packets are left over"),
    (ServeFault::LeftOver, "offers are left over"),
    (ServeFault::Mismatch, "the books do not agree"),
    (ServeFault::NoMemory, "out of memory"),
    (ServeFault::Audit, "cannot write the audit"),
    (ServeFault::Output, "cannot write the output"),
];

/// Faults with the system's number of an error, and their texts. Number 24 has no kind, so its text is the system's.
static NUMBERED: [(ServeFault, i32, &str); 3] = [
    (
        ServeFault::Accept,
        24,
        "cannot accept a connection: Too many open files (os error 24)",
    ),
    (
        ServeFault::Uplink,
        104,
        "the uplink failed: connection reset",
    ),
    (ServeFault::Uplink, 32, "the uplink failed: broken pipe"),
];

// Whether the fault is shown by this text.
fn is_shown(alloc: Global, fault: RunFault, text: &str) -> bool {
    match fault.to_string(alloc) {
        Ok(shown) => shown.as_bytes() == text.as_bytes(),
        Err(_) => false,
    }
}

#[test]
fn faults_have_their_texts(rt: HostRuntime) {
    for &(kind, text) in &FAULTS {
        holds(&rt, text, is_shown(rt.alloc(), RunFault::from(kind), text));
    }
}

#[test]
fn faults_have_their_reasons(rt: HostRuntime) {
    for &(kind, number, text) in &NUMBERED {
        let reason = Some(Reason(Error::from_raw_os_error(number)));
        let fault = RunFault { kind, reason };
        holds(&rt, text, is_shown(rt.alloc(), fault, text));
    }
    let late = RunFault {
        kind: ServeFault::Uplink,
        reason: Some(Reason(Error::from(ErrorKind::TimedOut))),
    };
    let is_late = is_shown(rt.alloc(), late, "the uplink failed: timed out");
    holds(&rt, "an uplink that is ended", is_late);
}
