//! Listeners.

use crate::stream::Stream;
use mio::net::{TcpListener, UnixListener, UnixStream};
use mio::{Interest, Registry, Token};
use std::fs::{Files, Permissions};
use std::io::ErrorKind;
use std::net::{Net, SocketAddr};
use std::os::unix::fs::PermissionsExt;
use std::{fs, io};

/// A listener whose calls do not wait.
pub enum Listener {
    Tcp(TcpListener),
    Unix(UnixListener),
}

impl Drop for Listener {
    fn drop(self) {
        match self {
            Listener::Tcp(listener) => drop(listener),
            Listener::Unix(listener) => drop(listener),
        }
    }
}

impl Listener {
    /// Listens at an address.
    pub fn bind(net: &impl Net, address: SocketAddr) -> io::Result<Listener> {
        Ok(Listener::Tcp(TcpListener::bind(net, address)?))
    }

    /// Listens at the path of a Unix socket, whose file gets this mode. A file on which nobody listens is removed
    /// first.
    pub fn bind_path<R: Files + Net>(rt: &R, path: &str, mode: u32) -> io::Result<Listener> {
        if is_abandoned(rt, path) {
            fs::remove_file(rt, path)?;
        }
        let listener = UnixListener::bind(rt, path)?;
        Listener::set_mode(rt, path, mode)?;
        Ok(Listener::Unix(listener))
    }

    /// Gives the file of a Unix socket this mode.
    pub fn set_mode(files: &impl Files, path: &str, mode: u32) -> io::Result<()> {
        fs::set_permissions(files, path, Permissions::from_mode(mode))
    }

    /// The address at which it listens, or `None` if it listens at a path.
    pub fn local_address(&self) -> io::Result<Option<SocketAddr>> {
        match self {
            Listener::Tcp(listener) => Ok(Some(listener.local_addr()?)),
            Listener::Unix(_) => Ok(None),
        }
    }

    /// Has events of the listener carry this token from here on.
    pub fn register(&mut self, registry: &Registry, token: Token) -> io::Result<()> {
        match self {
            Listener::Tcp(listener) => registry.register(listener, token, Interest::READABLE),
            Listener::Unix(listener) => registry.register(listener, token, Interest::READABLE),
        }
    }

    /// The next connection, and the address that it comes from if that is over TCP. `WouldBlock` if none waits.
    pub fn accept(&self) -> io::Result<(Stream, Option<SocketAddr>)> {
        match self {
            Listener::Tcp(listener) => {
                let (stream, address) = listener.accept()?;
                Ok((Stream::Tcp(stream), Some(address)))
            }
            Listener::Unix(listener) => Ok((Stream::Unix(listener.accept()?.0), None)),
        }
    }
}

// Whether the path is that of a Unix socket on which nobody listens.
fn is_abandoned(net: &impl Net, path: &str) -> bool {
    match UnixStream::connect(net, path) {
        Ok(_) => false,
        Err(fault) => fault.kind() == ErrorKind::ConnectionRefused,
    }
}
