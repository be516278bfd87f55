//! Bills of texts: those of the worked books, and each way in which a line is not the next one.

use super::assertions::holds;
use super::tariffs::Four;
use share_base::Refusal;
use share_bill::{BookBill, Kind, NotBilled, TenantBill, Wrong, bill_text};
use share_model::{Got, PlainReader, ScriptedReader, TellingReader};
use std::alloc::Global;
use std::process::Abort;

/// A name, its packets, bytes and units, and their cost.
type WantedRow = (&'static str, u64, u64, u64, u64);

/// A text that has a bill.
struct Billed {
    text: &'static str,
    kind: Kind,
    rows: &'static [WantedRow],
    cut: Option<u64>,
}

/// A text that has none.
struct Refused {
    text: &'static str,
    number: u64,
    wrong: Wrong,
}

static BILLED: [Billed; 8] = [
    // A currency backs both tenants, and one frame goes out.
    Billed {
        text: "audit 2\nmkcur x\nopen a 4 1\nopen b 4 1\nmktkt 1000 base\nfund 1 cur x\nmktkt 1 x\nfund 2 flow a\n\
            mktkt 2 x\nfund 3 flow b\nsend a 61\nsend a 62\nsend b 63\nturn 18\n",
        kind: Kind::Whole,
        rows: &[("a", 0, 0, 0, 0), ("b", 1, 18, 18, 18)],
        cut: None,
    },
    Billed {
        text: "lengths 2\nmkcur x\nopen a 4 1\nopen b 4 1\nmktkt 1000 base\nfund 1 cur x\nmktkt 1 x\nfund 2 flow a\n\
            mktkt 2 x\nfund 3 flow b\nsend a 1\nsend a 1\nsend b 1\nturn 18\n",
        kind: Kind::Lengths,
        rows: &[("a", 0, 0, 0, 0), ("b", 1, 18, 18, 18)],
        cut: None,
    },
    // One tenant is held, and the other has two frames.
    Billed {
        text: "lengths 2\nmkcur x\nopen a 4 1\nopen b 4 1\nmktkt 1000 base\nfund 1 cur x\nmktkt 1 x\nfund 2 flow a\n\
            mktkt 2 x\nfund 3 flow b\nhold b\nsend a 1\nsend a 1\nturn 18\nturn 18\n",
        kind: Kind::Lengths,
        rows: &[("a", 2, 36, 36, 36), ("b", 0, 0, 0, 0)],
        cut: None,
    },
    // The last line has no line feed, and is left out.
    Billed {
        text: "lengths 2\nopen a 4 1\nmktkt 1 base\nfund 1 flow a\nsend a 1\nturn 18",
        kind: Kind::Lengths,
        rows: &[("a", 0, 0, 0, 0)],
        cut: Some(6),
    },
    // A gap of the flow numbers has no row.
    Billed {
        text: "audit 2\nopen a 4 1\nopen gap 1 1\nclose gap\nopen b 4 1\n",
        kind: Kind::Whole,
        rows: &[("a", 0, 0, 0, 0), ("b", 0, 0, 0, 0)],
        cut: None,
    },
    // 17 bytes and 31 are one cell of 48 and an overhead of 16, each unit for 2. 9017 bytes are five cells of 2048 and
    // an overhead of 1024, each unit for 3.
    Billed {
        text: "lengths 2\nopen a 4 2\nopen b 4 4\nmktkt 1 base\nmktkt 1 base\nfund 1 flow a\nfund 2 flow b\n\
            send a 31\nturn 48\nsend b 9000\nturn 9017\n",
        kind: Kind::Lengths,
        rows: &[("a", 1, 48, 64, 128), ("b", 1, 9017, 11264, 33792)],
        cut: None,
    },
    // A refused command is an event.
    Billed {
        text: "lengths 2\nopen a 4 1\nresume a\n",
        kind: Kind::Lengths,
        rows: &[("a", 0, 0, 0, 0)],
        cut: None,
    },
    Billed {
        text: "audit 2\n",
        kind: Kind::Whole,
        rows: &[],
        cut: None,
    },
];

static REFUSED: [Refused; 20] = [
    Refused {
        text: "",
        number: 1,
        wrong: Wrong::First,
    },
    Refused {
        text: "lengths 2",
        number: 1,
        wrong: Wrong::First,
    },
    Refused {
        text: "audit 1\nopen a 4 1\n",
        number: 1,
        wrong: Wrong::First,
    },
    Refused {
        text: "open a 4 1\n",
        number: 1,
        wrong: Wrong::First,
    },
    Refused {
        text: "lengths 2\nlengths 2\n",
        number: 2,
        wrong: Wrong::Unread(Refusal::Syntax),
    },
    Refused {
        text: "audit 2\naudit 2\n",
        number: 2,
        wrong: Wrong::Foreign,
    },
    Refused {
        text: "audit 2\nopen a 4 1\nreport\n",
        number: 3,
        wrong: Wrong::Foreign,
    },
    Refused {
        text: "lengths 2\nopen a 4 1\ntorn\n",
        number: 3,
        wrong: Wrong::Foreign,
    },
    Refused {
        text: "lengths 2\nsend a 1\n",
        number: 2,
        wrong: Wrong::Untaken(Refusal::NoFlow),
    },
    Refused {
        text: "lengths 2\nopen a 1 1\nsend a 1\nsend a 1\n",
        number: 4,
        wrong: Wrong::Untaken(Refusal::BufferFull),
    },
    Refused {
        text: "lengths 2\nopen a 1 1\nsend a 9001\n",
        number: 3,
        wrong: Wrong::Unread(Refusal::Range),
    },
    Refused {
        text: "lengths 2\nopen a 1 1\nsend a 0\n",
        number: 3,
        wrong: Wrong::Unread(Refusal::Range),
    },
    Refused {
        text: "lengths 2\nopen a 1 1\nsend a 01\n",
        number: 3,
        wrong: Wrong::Unread(Refusal::Syntax),
    },
    Refused {
        text: "lengths 2\nopen a 1 1\nsend a\n",
        number: 3,
        wrong: Wrong::Unread(Refusal::Syntax),
    },
    Refused {
        text: "audit 2\nopen a 1 1\nsend a 6\n",
        number: 3,
        wrong: Wrong::Unread(Refusal::Syntax),
    },
    // Nothing is to be sent: no packet waits, or its flow has no tickets.
    Refused {
        text: "lengths 2\nturn 18\n",
        number: 2,
        wrong: Wrong::Idle,
    },
    Refused {
        text: "lengths 2\nopen a 1 1\nsend a 1\nturn 18\n",
        number: 4,
        wrong: Wrong::Idle,
    },
    // The frame has another number of bytes.
    Refused {
        text: "lengths 2\nopen a 4 1\nmktkt 1 base\nfund 1 flow a\nsend a 1\nturn 17\n",
        number: 6,
        wrong: Wrong::Sent(18),
    },
    Refused {
        text: "lengths 2\nopen a 4 1\nmktkt 1 base\nfund 1 flow a\nsend a 1\nturn 19\n",
        number: 6,
        wrong: Wrong::Sent(18),
    },
    Refused {
        text: "lengths 2\nopen a 4 1\n\nopen b 4 1\n",
        number: 3,
        wrong: Wrong::Unread(Refusal::Syntax),
    },
];

// Whether a row is the wanted one.
fn is_row(row: &TenantBill, wanted: &WantedRow) -> bool {
    row.name.as_bytes() == wanted.0.as_bytes()
        && row.packets == wanted.1
        && row.bytes == wanted.2
        && row.units == wanted.3
        && row.amount == wanted.4
}

fn are_rows(rows: &[TenantBill], wanted: &[WantedRow]) -> bool {
    rows.len() == wanted.len()
        && rows
            .iter()
            .zip(wanted.iter())
            .all(|(row, wanted)| is_row(row, wanted))
}

// Whether a text, read so, has the wanted bill.
fn has_bill<I: TellingReader + Drop>(alloc: Global, reader: I, wanted: &Billed) -> bool {
    match bill_text(alloc, Four, reader) {
        Ok(BookBill { kind, rows, cut }) => {
            let is = kind == wanted.kind
                && cut == wanted.cut
                && are_rows(rows.as_slice(), wanted.rows);
            drop(rows);
            is
        }
        Err(_) => false,
    }
}

fn has_none<I: TellingReader + Drop>(alloc: Global, reader: I, wanted: &Refused) -> bool {
    match bill_text(alloc, Four, reader) {
        Ok(bill) => {
            drop(bill);
            false
        }
        Err(fault) => {
            fault
                == NotBilled::Line {
                    number: wanted.number,
                    wrong: wanted.wrong,
                }
        }
    }
}

#[test]
fn texts_are_billed(rt: HostRuntime) {
    let alloc = rt.alloc();
    for wanted in &BILLED {
        let input = PlainReader(wanted.text.as_bytes());
        holds(&rt, wanted.text, has_bill(alloc, input, wanted));
    }
}

#[test]
fn texts_are_refused(rt: HostRuntime) {
    let alloc = rt.alloc();
    for wanted in &REFUSED {
        let input = PlainReader(wanted.text.as_bytes());
        holds(&rt, wanted.text, has_none(alloc, input, wanted));
    }
}
