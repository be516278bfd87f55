//! Calls on sockets and descriptors that `mio` does not offer.
ghost use Rattle.std.specs.Prelude.{◌≤◌, length, IfOk};
ghost use Rattle.libc.specs.Io.{Moved};

use crate::progress::{is_end, outcome_of};
use libc::net as c;
use std::io;
use std::io::Error;
use std::os::fd::RawFd;

/// Sets how many bytes a socket may hold that were written and that the far end has not acknowledged. Linux doubles it,
/// and cuts it to its own limit first.
pub(crate) fn set_send_buffer(fd: RawFd, bytes: u64) -> io::Result<()> {
    let bytes = bytes.min(i32::MAX as u64) as i32;
    let mut value = [0u8; 16];
    value[..4].copy_from_slice(&bytes.to_ne_bytes());
    let status = unsafe { c::setsockopt(fd, c::SOL_SOCKET, c::SO_SNDBUF, &value, 4) };
    done(status)
}

// The meaning of the status of a call.
fn done(status: i32) -> io::Result<()> {
    if status < 0 {
        Err(Error::from_raw_os_error(os::errno()))
    } else {
        Ok(())
    }
}

/// Has later calls of a descriptor not wait.
pub(crate) fn set_nonblocking(fd: RawFd) -> io::Result<()> {
    done(os::set_nonblocking(fd, true))
}

/// Whether a descriptor is a socket.
pub(crate) fn is_socket(fd: RawFd) -> bool {
    let mut value = [0u8; 16];
    let mut length: u32 = 4;
    let status = unsafe { c::getsockopt(fd, c::SOL_SOCKET, c::SO_RCVBUF, &mut value, &mut length) };
    status >= 0
}

/// Reads once.
pub(crate) fn read(fd: RawFd, buffer: &mut [u8]) -> io::Result<usize>
    ensures { IfOk result (λ count. count ≤ length buffer.new) }
{
    count_of(libc::read(fd, buffer), buffer)
}

/// Writes once.
pub(crate) fn write(fd: RawFd, bytes: &[u8]) -> io::Result<usize> {
    count_of(libc::write(fd, bytes), bytes)
}

/// Writes once to a socket, and raises no signal if nobody reads.
pub(crate) fn send(fd: RawFd, bytes: &[u8]) -> io::Result<usize> {
    let flags = c::MSG_NOSIGNAL | c::MSG_DONTWAIT;
    count_of(unsafe { c::send(fd, bytes, flags) }, bytes)
}

// The number of these bytes that a call moved.
fn count_of(moved: isize, bytes: &[u8]) -> io::Result<usize>
    requires { Moved (length bytes.now) moved }
    ensures { IfOk result (λ count. count ≤ length bytes.now) }
{
    if moved < 0 {
        Err(Error::from_raw_os_error(os::errno()))
    } else {
        Ok(moved as usize)
    }
}

/// Whether nothing of a stream is unread, and nothing more comes.
pub(crate) fn is_at_its_end(fd: RawFd) -> bool {
    let mut byte = [0u8; 1];
    let count = unsafe { c::recv(fd, &mut byte, c::MSG_PEEK | c::MSG_DONTWAIT) };
    let answer = if count < 0 {
        Err(Error::from_raw_os_error(os::errno()))
    } else {
        Ok(count as usize)
    };
    is_end(outcome_of(answer))
}
