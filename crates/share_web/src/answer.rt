//! The bytes of an answer.
ghost use Rattle.std.specs.Prelude.{◌≡◌, IfOk};
ghost use Rattle.share_web.specs.Answers.{answer_text, body_if, fields_of, reason_of, refusal_fields, refusal_text};
ghost use Rattle.share_web.specs.Answers.{response};

use crate::page::common_fields;
use crate::parts::push_three;
use crate::target::{Exposition, Refusal, Resource};
use itoa::Buffer;
use std::alloc::{AllocError, Global};

/// The answer with a body, or without it if a HEAD asked for it.
pub fn answer_text(
    alloc: Global,
    resource: Resource,
    body: &[u8],
    has_body: bool,
) -> Result<Vec<u8>, AllocError>
    ensures { IfOk result (λ text. text.items ≡ answer_text resource body.now has_body) }
{
    response(alloc, b"200 OK", fields_of(resource), body, has_body)
}

/// The answer that refuses a request. Its body is the reason.
pub fn refusal_text(alloc: Global, why: Refusal, has_body: bool) -> Result<Vec<u8>, AllocError>
    ensures { IfOk result (λ text. text.items ≡ refusal_text why has_body) }
{
    let reason = reason_of(why);
    response(alloc, reason, refusal_fields(why), reason, has_body)
}

// An answer with a code and its reason, fields of its own, and a body.
#[tactic(auto, unfolding(crate::specs::Answers::response))]
fn response(
    alloc: Global,
    reason: &[u8],
    fields: &[u8],
    body: &[u8],
    has_body: bool,
) -> Result<Vec<u8>, AllocError>
    ensures { IfOk result (λ text. text.items ≡ response reason.now fields.now body.now has_body) }
{
    let mut digits = Buffer::new();
    let mut text = Vec::new(alloc);
    push_three(&mut text, b"HTTP/1.1 ", reason, b"\r\n")?;
    push_three(&mut text, common_fields(), fields, b"Content-Length: ")?;
    push_three(
        &mut text,
        digits.format(body.len()).as_bytes(),
        b"\r\n\r\n",
        body_if(body, has_body),
    )?;
    Ok(text)
}

fn body_if(body: &[u8], has_body: bool) -> &[u8]
    ensures { result.now ≡ body_if body.now has_body }
{
    if has_body { body } else { &[] }
}

fn fields_of(resource: Resource) -> &'static [u8]
    ensures { result.now ≡ fields_of resource }
{
    match resource {
        Resource::Page => b"Content-Type: text/html; charset=utf-8\r\n",
        Resource::Status => b"Content-Type: application/json\r\n",
        Resource::Books => b"Content-Type: text/csv; charset=utf-8\r\n",
        Resource::Metrics(Exposition::Plain) => {
            b"Content-Type: text/plain; version=0.0.4; charset=utf-8\r\n"
        }
        Resource::Metrics(Exposition::OpenMetrics) => {
            b"Content-Type: application/openmetrics-text; version=1.0.0; charset=utf-8\r\n"
        }
    }
}

fn refusal_fields(why: Refusal) -> &'static [u8]
    ensures { result.now ≡ refusal_fields why }
{
    match why {
        Refusal::MethodNotAllowed => b"Content-Type: text/plain\r\nAllow: GET, HEAD\r\n",
        Refusal::Unavailable => b"Content-Type: text/plain\r\nRetry-After: 1\r\n",
        _ => b"Content-Type: text/plain\r\n",
    }
}

fn reason_of(why: Refusal) -> &'static [u8]
    ensures { result.now ≡ reason_of why }
{
    match why {
        Refusal::BadRequest => b"400 Bad Request",
        Refusal::NotFound => b"404 Not Found",
        Refusal::MethodNotAllowed => b"405 Method Not Allowed",
        Refusal::UriTooLong => b"414 URI Too Long",
        Refusal::MisdirectedRequest => b"421 Misdirected Request",
        Refusal::HeadTooLarge => b"431 Request Header Fields Too Large",
        Refusal::Unavailable => b"503 Service Unavailable",
        Refusal::VersionNotSupported => b"505 HTTP Version Not Supported",
    }
}
