//! Requests, as their heads ask.
ghost use Rattle.std.specs.Prelude.{◌≡◌, ℕ, List, Some, length, map, option_copied};
ghost use Rattle.httparse.specs.Borrowed.{header_parts};
ghost use Rattle.httparse.specs.Grammar.{HasNoRequest, ReadsRequest, RequestHead};
ghost use Rattle.share_web.specs.Requests.{AsksBy, IsUnread, exposition_by, is_read_alone, refused, request_by};
ghost use Rattle.share_web.specs.Requests.{resource_by, want_by};

use crate::fields::{count_named, has_host_at, wants_open_metrics};
use crate::target::{Exposition, Refusal, Resource, Want};
use crate::unread::unread;
use httparse::{EMPTY_HEADER, Error, Header, Status};

/// The most fields of a head.
const MAX_FIELDS: usize = 64;

/// A request: the resource that it asks for, or why it is refused, and whether its answer has a body.
#[derive(Clone, Copy, Debug, PartialEq, Eq)]
pub struct Request {
    pub want: Want,
    pub has_body: bool,
}

/// The request of a head, for a gateway that listens at this address.
pub fn asked(head: &[u8], address: &[u8]) -> Request
    ensures request { (h : RequestHead) (rest : List ℕ) → ReadsRequest head.now h rest → AsksBy address.now h result }
    ensures none { HasNoRequest head.now → IsUnread head.now result }
{
    let mut headers = [EMPTY_HEADER; MAX_FIELDS];
    asked_with(head, address, &mut headers)
}

// The same, with room for the fields.
fn asked_with<'b>(head: &'b [u8], address: &[u8], headers: &mut [Header<'b>]) -> Request
    requires { length headers.old ≡ 64 }
    ensures request { (h : RequestHead) (rest : List ℕ) → ReadsRequest head.now h rest → AsksBy address.now h result }
    ensures none { HasNoRequest head.now → IsUnread head.now result }
{
    let mut request = httparse::Request::new(headers);
    match request.parse(head) {
        Ok(Status::Complete(_)) => request_in(&request, address),
        Ok(Status::Partial) => refused(unread(head)),
        Err(Error::TooManyHeaders) => refused(Refusal::HeadTooLarge),
        Err(_) => refused(unread(head)),
    }
}

fn refused(why: Refusal) -> Request
    ensures { result ≡ refused why }
{
    Request {
        want: Want::Refusal(why),
        has_body: true,
    }
}

// The request whose head was read.
fn request_in(request: &httparse::Request<'_, '_>, address: &[u8]) -> Request
    ensures { (method target : List ℕ) → option_copied request.now.method ≡ Some method
        → option_copied request.now.path ≡ Some target
        → result ≡ request_by address.now method target (map header_parts request.now.headers.now) }
{
    match (request.method, request.path) {
        (Some(method), Some(target)) => request_by(address, method, target, request.headers),
        _ => refused(Refusal::BadRequest),
    }
}

fn request_by(address: &[u8], method: &str, target: &str, headers: &[Header<'_>]) -> Request
    ensures { result ≡ request_by address.now method.now target.now (map header_parts headers.now) }
{
    Request {
        want: want_by(address, method.as_bytes(), target.as_bytes(), headers),
        has_body: method.as_bytes() != b"HEAD".as_slice(),
    }
}

fn want_by(address: &[u8], method: &[u8], target: &[u8], headers: &[Header<'_>]) -> Want
    ensures { result ≡ want_by address.now method.now target.now (map header_parts headers.now) }
{
    if count_named(b"host", headers) != 1 {
        Want::Refusal(Refusal::BadRequest)
    } else if !has_host_at(address, headers) {
        Want::Refusal(Refusal::MisdirectedRequest)
    } else if !is_read_alone(method) {
        Want::Refusal(Refusal::MethodNotAllowed)
    } else {
        resource_by(target, headers)
    }
}

// Whether a method changes nothing.
fn is_read_alone(method: &[u8]) -> bool
    ensures { result ≡ is_read_alone method.now }
{
    method == b"GET".as_slice() || method == b"HEAD".as_slice()
}

fn resource_by(target: &[u8], headers: &[Header<'_>]) -> Want
    ensures { result ≡ resource_by target.now (map header_parts headers.now) }
{
    if target == b"/".as_slice() {
        Want::Resource(Resource::Page)
    } else if target == b"/status.json".as_slice() {
        Want::Resource(Resource::Status)
    } else if target == b"/books.csv".as_slice() {
        Want::Resource(Resource::Books)
    } else if target == b"/metrics".as_slice() {
        Want::Resource(Resource::Metrics(exposition_by(headers)))
    } else {
        Want::Refusal(Refusal::NotFound)
    }
}

fn exposition_by(headers: &[Header<'_>]) -> Exposition
    ensures { result ≡ exposition_by (map header_parts headers.now) }
{
    if wants_open_metrics(headers) {
        Exposition::OpenMetrics
    } else {
        Exposition::Plain
    }
}
