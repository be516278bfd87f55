//! The bytes of answers.

use crate::tests::assertions::same;
use share_web::{Exposition, PAGE, Refusal, Resource, answer_text, refusal_text};
use std::alloc::Global;
use std::process::Abort;
use std::str;
use std::test::Fail;

/// The lines between the first one and those that only some answers have, without the policy.
const COMMON: &str =
    "Connection: close\r\nCache-Control: no-store\r\nX-Content-Type-Options: nosniff\r\n\
    Referrer-Policy: no-referrer\r\nCross-Origin-Resource-Policy: same-origin\r\n\
    Content-Security-Policy: default-src 'none'; connect-src 'self'; img-src data:; base-uri 'none'; \
    form-action 'none'; frame-ancestors 'none'; style-src 'sha256-";

// An answer begins with its reason and the lines that all have, and ends with this.
fn compare(rt: &impl Abort, row: &str, answer: &[u8], reason: &str, end: &str) {
    let text = str::from_utf8(answer).ok().expect(rt, "text");
    let rest = text.strip_prefix("HTTP/1.1 ").expect(rt, "the version");
    let rest = rest.strip_prefix(reason).expect(rt, "the reason");
    let rest = rest.strip_prefix("\r\n").expect(rt, "the end of the line");
    same(rt, row, rest.starts_with(COMMON), true);
    same(rt, row, text.ends_with(end), true);
    same(rt, row, text.contains("unsafe"), false);
}

fn served(rt: &impl Abort, alloc: Global, resource: Resource, body: &str, end: &str) {
    let whole = answer_text(alloc, resource, body.as_bytes(), true)
        .ok()
        .expect(rt, "memory");
    let head = answer_text(alloc, resource, body.as_bytes(), false)
        .ok()
        .expect(rt, "memory");
    compare(rt, end, whole.as_slice(), "200 OK", end);
    same(
        rt,
        end,
        head.as_slice(),
        &whole.as_slice()[..whole.len().saturating_sub(body.len())],
    );
}

#[test]
fn answers_have_their_lengths(rt: HostRuntime) -> Result<(), Fail> {
    let rows = [
        (
            Resource::Page,
            "<p>",
            "\r\nContent-Type: text/html; charset=utf-8\r\nContent-Length: 3\r\n\r\n<p>",
        ),
        (
            Resource::Status,
            "{\"book\":1}\n",
            "\r\nContent-Type: application/json\r\nContent-Length: 11\r\n\r\n{\"book\":1}\n",
        ),
        (
            Resource::Books,
            "",
            "\r\nContent-Type: text/csv; charset=utf-8\r\nContent-Length: 0\r\n\r\n",
        ),
        (
            Resource::Metrics(Exposition::Plain),
            "a 1\n",
            "\r\nContent-Type: text/plain; version=0.0.4; charset=utf-8\r\nContent-Length: 4\r\n\r\na 1\n",
        ),
        (
            Resource::Metrics(Exposition::OpenMetrics),
            "# EOF\n",
            "\r\nContent-Type: application/openmetrics-text; version=1.0.0; charset=utf-8\r\nContent-Length: 6\r\n\r\n\
             # EOF\n",
        ),
    ];
    for (resource, body, end) in rows {
        served(&rt, rt.alloc(), resource, body, end);
    }
    Ok(())
}

fn refused(rt: &impl Abort, alloc: Global, why: Refusal, reason: &str, end: &str) {
    let whole = refusal_text(alloc, why, true).ok().expect(rt, "memory");
    compare(rt, reason, whole.as_slice(), reason, end);
    let head = refusal_text(alloc, why, false).ok().expect(rt, "memory");
    same(
        rt,
        reason,
        head.as_slice(),
        &whole.as_slice()[..whole.len().saturating_sub(reason.len())],
    );
}

/// Refusals, the status and reason of each, and the end of its answer after the fields that all have.
static REFUSALS: [(Refusal, &str, &str); 8] = [
    (
        Refusal::BadRequest,
        "400 Bad Request",
        "\r\nContent-Type: text/plain\r\nContent-Length: 15\r\n\r\n400 Bad Request",
    ),
    (
        Refusal::NotFound,
        "404 Not Found",
        "\r\nContent-Type: text/plain\r\nContent-Length: 13\r\n\r\n404 Not Found",
    ),
    (
        Refusal::MethodNotAllowed,
        "405 Method Not Allowed",
        "\r\nAllow: GET, HEAD\r\nContent-Length: 22\r\n\r\n405 Method Not Allowed",
    ),
    (
        Refusal::UriTooLong,
        "414 URI Too Long",
        "\r\nContent-Length: 16\r\n\r\n414 URI Too Long",
    ),
    (
        Refusal::MisdirectedRequest,
        "421 Misdirected Request",
        "\r\nContent-Length: 23\r\n\r\n421 Misdirected Request",
    ),
    (
        Refusal::HeadTooLarge,
        "431 Request Header Fields Too Large",
        "\r\nContent-Length: 35\r\n\r\n431 Request Header Fields Too Large",
    ),
    (
        Refusal::Unavailable,
        "503 Service Unavailable",
        "\r\nRetry-After: 1\r\nContent-Length: 23\r\n\r\n503 Service Unavailable",
    ),
    (
        Refusal::VersionNotSupported,
        "505 HTTP Version Not Supported",
        "\r\nContent-Length: 30\r\n\r\n505 HTTP Version Not Supported",
    ),
];

#[test]
fn refusals_have_their_reasons(rt: HostRuntime) -> Result<(), Fail> {
    for &(why, reason, end) in &REFUSALS {
        refused(&rt, rt.alloc(), why, reason, end);
    }
    Ok(())
}

#[test]
fn page_has_nothing_from_elsewhere(rt: HostRuntime) -> Result<(), Fail> {
    let page = str::from_utf8(PAGE).ok().ok_or("text")?;
    same(
        &rt,
        "begins",
        page.starts_with("<!doctype html>\n<html lang=\"en\">\n"),
        true,
    );
    same(
        &rt,
        "ends",
        page.ends_with("</script>\n</body>\n</html>\n"),
        true,
    );
    for &word in &[
        "http:", "https:", "src=", "@import", "url(", "style=", " onclick",
    ] {
        same(&rt, word, page.contains(word), false);
    }
    Ok(())
}
