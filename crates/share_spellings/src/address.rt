//! Addresses, ports and paths.
ghost use Rattle.std.specs.Prelude.{◌≡◌, IfOk, IfErr, OnErr, Ok, None, Some, MatchOption, codes};
ghost use Rattle.share_spellings.specs.Addresses.{address_of, socket_of, host_of, peer_of, listener_of, port_of};
ghost use Rattle.share_spellings.specs.Addresses.{path_of};
ghost use Rattle.share_spellings.specs.Addresses.{descriptor_of, plain_port_of, is_path, is_no_zero, after};
ghost use Rattle.std.specs.List.{list_all};

use crate::amount::read_number;
use share_settings::{Listener, Peer, Port, Text};
use std::alloc::{AllocError, Global};
use std::net::{IpAddr, SocketAddr};

/// The longest path of a Unix socket, in bytes.
pub const MAX_PATH: usize = 107;

/// The least descriptor that is not a standard stream.
const MIN_DESCRIPTOR: u64 = 3;

/// The greatest descriptor that a process can have.
const MAX_DESCRIPTOR: u64 = 0x7fff_ffff;

/// An IP address and a port from 1 on. `None` if the text spells none.
pub fn read_address(text: &str) -> Option<SocketAddr>
    ensures { result ≡ address_of text.now }
{
    let address = socket(text)?;
    if address.port() == 0 {
        None
    } else {
        Some(address)
    }
}

fn socket(text: &str) -> Option<SocketAddr>
    ensures { result ≡ socket_of text.now }
{
    text.parse::<SocketAddr>().ok()
}

/// An IP address. `None` if the text spells none.
pub fn read_host(text: &str) -> Option<IpAddr>
    ensures { result ≡ host_of text.now }
{
    text.parse::<IpAddr>().ok()
}

/// `ADDRESS` or `udp:ADDRESS`. `None` if it is neither.
pub fn read_peer(text: &str) -> Option<Peer>
    ensures { result ≡ peer_of text.now }
{
    match after(text, "udp:") {
        Some(rest) => Some(Peer::Udp(read_address(rest)?)),
        None => Some(Peer::Tcp(read_address(text)?)),
    }
}

/// `ADDRESS` or `unix:PATH`. `None` if it is neither.
pub fn read_listener(alloc: Global, text: &str) -> Result<Option<Listener>, AllocError>
    ensures { IfOk result (λ listener. listener ≡ listener_of text.now) }
{
    match after(text, "unix:") {
        Some(path) => match read_path(alloc, path, MAX_PATH)? {
            None => Ok(None),
            Some(path) => Ok(Some(Listener::Unix(path))),
        },
        None => match read_address(text) {
            None => Ok(None),
            Some(address) => Ok(Some(Listener::Tcp(address))),
        },
    }
}

/// `ADDRESS`, `unix:PATH`, `udp:ADDRESS`, `udp-to:ADDRESS` or `fd:NUMBER`. `None` if it is none of these.
pub fn read_port(alloc: Global, text: &str) -> Result<Option<Port>, AllocError>
    ensures { IfOk result (λ port. port ≡ port_of text.now) }
{
    match after(text, "unix:") {
        Some(path) => match read_path(alloc, path, MAX_PATH)? {
            None => Ok(None),
            Some(path) => Ok(Some(Port::Unix(path))),
        },
        None => Ok(read_plain_port(text)),
    }
}

// A port that is not the path of a Unix socket.
fn read_plain_port(text: &str) -> Option<Port>
    ensures { result ≡ plain_port_of text.now }
{
    if let Some(rest) = after(text, "udp:") {
        return Some(Port::Udp(read_address(rest)?));
    }
    if let Some(rest) = after(text, "udp-to:") {
        return Some(Port::UdpTo(read_address(rest)?));
    }
    if let Some(rest) = after(text, "fd:") {
        return Some(Port::Descriptor(read_descriptor(rest)?));
    }
    Some(Port::Tcp(read_address(text)?))
}

/// A path: at least one byte and at most this many, none of which is zero. `None` if the text is no such path.
pub fn read_path(alloc: Global, text: &str, most: usize) -> Result<Option<Text>, AllocError>
    ensures { IfOk result (λ path. path ≡ path_of most text.now) }
{
    if is_path(text.as_bytes(), most) {
        Ok(Some(Text::copy(alloc, text)?))
    } else {
        Ok(None)
    }
}

// Whether a text is a path.
fn is_path(text: &[u8], most: usize) -> bool
    ensures { result ≡ is_path most text.now }
{
    !text.is_empty() && text.len() <= most && has_no_zero(text)
}

fn has_no_zero(text: &[u8]) -> bool
    ensures { result ≡ list_all is_no_zero text.now }
{
    text.iter().all(|byte| *byte != 0)
}

// A descriptor that is not a standard stream, and below 2^31.
fn read_descriptor(text: &str) -> Option<u32>
    ensures { result ≡ descriptor_of text.now }
{
    let number = read_number(text)?;
    if number < MIN_DESCRIPTOR || number > MAX_DESCRIPTOR {
        None
    } else {
        Some(number as u32)
    }
}

// The text after a prefix. `None` if the text does not begin with it.
fn after<'a>(text: &'a str, prefix: &str) -> Option<&'a str>
    ensures { MatchOption result (after prefix.now text.entry.now ≡ None)
        (λ rest. after prefix.now text.entry.now ≡ Some rest.now) }
{
    text.strip_prefix(prefix)
}
