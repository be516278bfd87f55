//! Worked sessions of links: figures that no report shows, and writers that are interrupted and fail. The sessions
//! whose figures a report shows are scripts of `tests/scripts/`.

use super::assertions::same;
use super::made::{LIFE, linked, scripted};
use super::talk::play;
use super::tariffs::Four;
use share_base::Version;
use share_model::Answer;

/// Three flows with 3, 2 and 1 tickets: before the fourth turn two of them have the same pass; and after their last
/// packets.
const THREE_FLOWS: &str = "\
    mktkt 3 base = ticket 1; mktkt 2 base = ticket 2; mktkt 1 base = ticket 3; open a 4 3 = flow 1; \
    open b 4 3 = flow 2; open c 4 3 = flow 3; fund 1 flow a = ok; fund 2 flow b = ok; fund 3 flow c = ok; \
    send a 61 = packet 1 1; send a 61 = packet 1 2; send a 61 = packet 1 3; send b 62 = packet 2 1; \
    send b 62 = packet 2 2; send c 63 = packet 3 1; turn 65535 = wrote 1 1 13 whole; \
    turn 65535 = wrote 2 1 13 whole; turn 65535 = wrote 1 2 13 whole; stride 1 = 366503875925; \
    stride 2 = 549755813888; stride 3 = 1099511627776; place 1 = 1099511627775; place 2 = 1099511627776; \
    place 3 = 1099511627776; last = 0; clock = 3072; turn 65535 = wrote 1 3 13 whole; \
    turn 65535 = wrote 2 2 13 whole; turn 65535 = wrote 3 1 13 whole; place 1 = 733007751852; \
    place 2 = 549755813891; place 3 = 3; account 1 = 3072; account 2 = 2048; account 3 = 1024; \
    pass = 2199023255549; last = 6144; clock = 6144";

/// A currency whose 3 tickets fund two flows. One of them is active; then both; then the other one rests again.
const TWO_SHARES: &str = "\
    mkcur x = ok; mktkt 1000 base = ticket 1; fund 1 cur x = ok; mktkt 1 x = ticket 2; mktkt 2 x = ticket 3; \
    open a 4 1 = flow 1; open b 4 1 = flow 2; fund 2 flow a = ok; fund 3 flow b = ok; send a 61 = packet 1 1; \
    tickets 1 = 1000; stride 1 = 1099511627; send b 62 = packet 2 1; tickets 1 = 333; stride 1 = 3301836720; \
    tickets 2 = 666; stride 2 = 1650918360; turn 65535 = wrote 2 1 13 whole; place 2 = 1657904668; \
    pass = 13972616; tickets 1 = 1000; place 1 = 1108831361";

/// Two frames. The first is one of which the writer accepts five bytes and is interrupted, which changes nothing, and
/// then accepts the rest. The other frame is one of which it accepts five bytes and fails.
const INTERRUPTED: &str = "\
    open a 4 1 = flow 1; mktkt 10 base = ticket 1; fund 1 flow a = ok; send a 6869 = packet 1 1; \
    turn 65535 = wrote 1 1 5 part; events = 5; account 1 = 0; packets 1 = 1; place 1 = 109951162777; clock = 0; \
    turn 65535 = again; events = 5; account 1 = 0; packets 1 = 1; place 1 = 109951162777; clock = 0; \
    turn 65535 = wrote 1 1 9 whole; account 1 = 14; account 2 = none; flow b = none";

const FAILED: &str = "\
    open a 4 1 = flow 1; mktkt 10 base = ticket 1; fund 1 flow a = ok; send a 6869 = packet 1 1; \
    turn 65535 = wrote 1 1 5 part; turn 65535 = torn 1 1 5; account 1 = 5";

/// The answers of a writer, the rows that a session plays with it, and the bytes that it has then.
static SESSIONS: [(&[Answer], &str, &[u8]); 4] = [
    (
        &[],
        THREE_FLOWS,
        b"\x4c\x01\0\0\0\x01\0\0\0\x01\0\x01a\x4c\x01\0\0\0\x02\0\0\0\x01\0\x01b\
        \x4c\x01\0\0\0\x01\0\0\0\x02\0\x01a\x4c\x01\0\0\0\x01\0\0\0\x03\0\x01a\
        \x4c\x01\0\0\0\x02\0\0\0\x02\0\x01b\x4c\x01\0\0\0\x03\0\0\0\x01\0\x01c",
    ),
    (&[], TWO_SHARES, b"\x4c\x01\0\0\0\x02\0\0\0\x01\0\x01b"),
    (
        &[
            Answer::Accepted(5),
            Answer::Interrupted,
            Answer::Accepted(9),
        ],
        INTERRUPTED,
        b"\x4c\x01\0\0\0\x01\0\0\0\x01\0\x02hi",
    ),
    (
        &[Answer::Accepted(5), Answer::Failed],
        FAILED,
        b"\x4c\x01\0\0\0",
    ),
];

#[test]
fn links_answer_as_worked(rt: HostRuntime) {
    let alloc = rt.alloc();
    for &(answers, rows, bytes) in &SESSIONS {
        let writer = scripted(&rt, alloc, answers);
        let mut link = linked(&rt, alloc, Four, Version::One, LIFE, writer);
        play(&rt, alloc, &mut link, rows);
        same(&rt, rows, link.writer().bytes(), bytes);
        drop(link);
    }
}
