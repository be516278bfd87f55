//! Heads that are not read.
ghost use Rattle.std.specs.Prelude.{◌≡◌, ◌≤◌, ◌==◌, IfSome, length, position};
ghost use Rattle.share_web.specs.Requests.{ends_with_other_version, has_line, has_other_version, is_other_version};
ghost use Rattle.share_web.specs.Requests.{too_long, unread};

use crate::head::is_ended;
use crate::target::Refusal;

/// The bytes of a version with the space before it and the carriage return after it.
const VERSION: usize = 10;

/// Why a head is refused that is not read as a request.
pub(crate) fn unread(head: &[u8]) -> Refusal
    ensures { result ≡ unread head.now }
{
    if !is_ended(head) {
        too_long(head)
    } else if has_other_version(head) {
        Refusal::VersionNotSupported
    } else {
        Refusal::BadRequest
    }
}

// Why a head is refused that has no end.
fn too_long(head: &[u8]) -> Refusal
    ensures { result ≡ too_long head.now }
{
    if has_line(head) {
        Refusal::HeadTooLarge
    } else {
        Refusal::UriTooLong
    }
}

// Whether the first line is whole.
fn has_line(head: &[u8]) -> bool
    ensures { result ≡ has_line head.now }
{
    head.iter().any(|byte| *byte == b'\n')
}

// Whether the first line ends with another version than those that are read.
fn has_other_version(head: &[u8]) -> bool
    ensures { result ≡ has_other_version head.now }
{
    match line_end(head) {
        None => false,
        Some(end) => ends_with_other_version(&head[..end]),
    }
}

// The place of the first line feed.
fn line_end(head: &[u8]) -> Option<usize>
    ensures value { result ≡ position (λ byte. byte == 10) head.now }
    ensures within { IfSome result (λ end. end ≤ length head.now) }
{
    head.iter().position(|byte| *byte == b'\n')
}

fn ends_with_other_version(line: &[u8]) -> bool
    ensures { result ≡ ends_with_other_version line.now }
{
    VERSION <= line.len() && is_other_version(&line[line.len() - VERSION..])
}

fn is_other_version(version: &[u8]) -> bool
    requires { length version.now ≡ 10 }
    ensures { result ≡ is_other_version version.now }
{
    version.starts_with(b" HTTP/")
        && version[6].is_ascii_digit()
        && version[7] == b'.'
        && version[8].is_ascii_digit()
        && version[9] == b'\r'
        && version != b" HTTP/1.0\r".as_slice()
        && version != b" HTTP/1.1\r".as_slice()
}
