//! Requests of heads, whole and in pieces.

use crate::tests::assertions::same;
use share_web::{Exposition, Head, MAX_HEAD, Refusal, Request, Resource, Want, asked};
use std::alloc::Global;
use std::process::Abort;
use std::test::Fail;

/// The address at which the gateway listens.
const ADDRESS: &[u8] = b"127.0.0.1:9107";

const PAGE: Want = Want::Resource(Resource::Page);

const PLAIN: Want = Want::Resource(Resource::Metrics(Exposition::Plain));

const BAD: Want = Want::Refusal(Refusal::BadRequest);

const NOT_FOUND: Want = Want::Refusal(Refusal::NotFound);

const NOT_ALLOWED: Want = Want::Refusal(Refusal::MethodNotAllowed);

const ELSEWHERE: Want = Want::Refusal(Refusal::MisdirectedRequest);

const VERSION: Want = Want::Refusal(Refusal::VersionNotSupported);

/// Heads, and what they ask for. A bar stands for the end of a line.
static HEADS: [(&str, Want); 34] = [
    ("GET / HTTP/1.1|Host: 127.0.0.1:9107||", PAGE),
    ("GET / HTTP/1.0|host:127.0.0.1:9107||", PAGE),
    (
        "GET /status.json HTTP/1.1\nHOST: 127.0.0.1:9107 \n\n",
        Want::Resource(Resource::Status),
    ),
    (
        "|GET /books.csv HTTP/1.1|Host: 127.0.0.1:9107||",
        Want::Resource(Resource::Books),
    ),
    ("GET /metrics HTTP/1.1|Host: 127.0.0.1:9107||", PLAIN),
    (
        "GET /metrics HTTP/1.1|Host: 127.0.0.1:9107|Accept: text/plain||",
        PLAIN,
    ),
    (
        "GET /metrics HTTP/1.1|accept: application/openmetrics-text;version=1.0.0,*/*;q=0.1|\
         Host: 127.0.0.1:9107||",
        Want::Resource(Resource::Metrics(Exposition::OpenMetrics)),
    ),
    ("HEAD / HTTP/1.1|Host: 127.0.0.1:9107||", PAGE),
    ("HEAD /nothing HTTP/1.1|Host: 127.0.0.1:9107||", NOT_FOUND),
    ("||", BAD),
    ("GET /||", BAD),
    ("nonsense||", BAD),
    ("GET / HTTP/1.1||", BAD),
    (
        "GET / HTTP/1.1|Host: 127.0.0.1:9107|Host: 127.0.0.1:9107||",
        BAD,
    ),
    ("GET / HTTP/1.1|Host: 127.0.0.1:9107|no field||", BAD),
    ("GET / HTTP/1.1|Host : 127.0.0.1:9107||", BAD),
    ("GET / HTTQ/1.1|Host: 127.0.0.1:9107||", BAD),
    ("GET /nothing HTTP/1.1|Host: 127.0.0.1:9107||", NOT_FOUND),
    ("GET /metrics/ HTTP/1.1|Host: 127.0.0.1:9107||", NOT_FOUND),
    ("GET * HTTP/1.1|Host: 127.0.0.1:9107||", NOT_FOUND),
    (
        "POST / HTTP/1.1|Host: 127.0.0.1:9107|Content-Length: 0||",
        NOT_ALLOWED,
    ),
    ("get / HTTP/1.1|Host: 127.0.0.1:9107||", NOT_ALLOWED),
    ("OPTIONS * HTTP/1.1|Host: 127.0.0.1:9107||", NOT_ALLOWED),
    ("GET / HTTP/1.1|Host: elsewhere.example:9107||", ELSEWHERE),
    ("GET / HTTP/1.1|Host: 127.0.0.1||", ELSEWHERE),
    ("GET / HTTP/1.1|Host: 127.0.0.1:91070||", ELSEWHERE),
    ("GET / HTTP/1.1|Host:||", ELSEWHERE),
    ("POST / HTTP/1.1|Host: elsewhere.example||", ELSEWHERE),
    ("GET / HTTP/2.0|Host: 127.0.0.1:9107||", VERSION),
    ("GET / HTTP/1.2|Host: 127.0.0.1:9107||", VERSION),
    ("PRI * HTTP/2.0||", VERSION),
    ("GET / HTTP/0.9||", VERSION),
    ("GET / HTTP/10.0||", BAD),
    ("GET / HTTP/1.1 ||", BAD),
];

// The head of these bytes, which come in pieces of this size, and then more.
fn head_of(rt: &impl Abort, alloc: Global, bytes: &[u8], size: usize, more: &[u8]) -> Head {
    let mut head = Head::new(alloc);
    for piece in bytes.chunks(size.max(1)) {
        same(rt, size, head.is_over(), false);
        same(rt, size, head.take(piece).is_ok(), true);
    }
    same(rt, size, head.take(more).is_ok(), true);
    head
}

#[test]
fn heads_ask(rt: HostRuntime) -> Result<(), Fail> {
    for &(row, want) in &HEADS {
        let head = row.replace(rt.alloc(), "|", "\r\n")?;
        let has_body = !row.starts_with("HEAD");
        let got = asked(head.as_bytes(), ADDRESS);
        same(&rt, row, got, Request { want, has_body });
    }
    Ok(())
}

#[test]
fn pieces_make_no_difference(rt: HostRuntime) -> Result<(), Fail> {
    for &(row, _) in &HEADS {
        let bytes = row.replace(rt.alloc(), "|", "\r\n")?;
        for &size in &[1usize, 2, 7, 1000] {
            let more = b"GET / HTTP/1.1\r\n\r\n";
            let head = head_of(&rt, rt.alloc(), bytes.as_bytes(), size, more);
            same(&rt, row, head.is_over(), true);
            same(&rt, row, head.as_bytes(), bytes.as_bytes());
        }
    }
    Ok(())
}

/// Hosts that a head names, addresses of gateways, and whether they serve it.
static HOSTS: [(&str, &str, Want); 5] = [
    ("[::1]", "[::1]:80", PAGE),
    ("[::1]:80", "[::1]:80", PAGE),
    ("[::1]:81", "[::1]:80", ELSEWHERE),
    ("[::1]", "[::1]:180", ELSEWHERE),
    ("[::1]", "[::1]:8080", ELSEWHERE),
];

#[test]
fn port_of_http_may_be_left_out(rt: HostRuntime) -> Result<(), Fail> {
    for &(host, address, want) in &HOSTS {
        let head = long_head(rt.alloc(), "GET / HTTP/1.1\r\nHost: ", host, 1, "\r\n\r\n")?;
        let got = asked(head.as_slice(), address.as_bytes());
        same(&rt, (host, address), got.want, want);
    }
    Ok(())
}

// A head that has this line in front, and then that many lines of this text.
fn long_head(
    alloc: Global,
    first: &str,
    line: &str,
    count: usize,
    last: &str,
) -> Result<Vec<u8>, Fail> {
    let mut bytes = Vec::from_slice(alloc, first.as_bytes())?;
    for _ in 0..count {
        bytes.extend_from_slice(line.as_bytes())?;
    }
    bytes.extend_from_slice(last.as_bytes())?;
    Ok(bytes)
}

/// A beginning of a head that is served.
const START: &str = "GET / HTTP/1.1\r\nHost: 127.0.0.1:9107\r\n";

/// Heads that are too long: a beginning, a text and how often it follows, the end, and the refusal.
static LONG_HEADS: [(&str, &str, &str, usize, &str, Refusal); 5] = [
    ("target", "GET /", "a", 9000, "", Refusal::UriTooLong),
    ("a field", START, "a", 9000, "", Refusal::HeadTooLarge),
    (
        "bytes",
        START,
        "a: bcdefg\r\n",
        800,
        "\r\n",
        Refusal::HeadTooLarge,
    ),
    (
        "fields",
        START,
        "a: b\r\n",
        64,
        "\r\n",
        Refusal::HeadTooLarge,
    ),
    (
        "no fields",
        START,
        "a: b\r\n",
        64,
        "no field\r\n\r\n",
        Refusal::HeadTooLarge,
    ),
];

#[test]
fn long_heads_are_refused(rt: HostRuntime) -> Result<(), Fail> {
    for &(row, first, line, count, last, why) in &LONG_HEADS {
        let bytes = long_head(rt.alloc(), first, line, count, last)?;
        let head = head_of(&rt, rt.alloc(), bytes.as_slice(), 16384, b"");
        same(&rt, row, head.is_over(), true);
        same(&rt, row, head.as_bytes().len(), bytes.len().min(MAX_HEAD));
        let got = asked(head.as_bytes(), ADDRESS);
        same(&rt, row, got.want, Want::Refusal(why));
    }
    let most = long_head(rt.alloc(), START, "a: b\r\n", 63, "\r\n")?;
    let got = asked(most.as_slice(), ADDRESS);
    same(&rt, "64 fields", got.want, PAGE);
    Ok(())
}
