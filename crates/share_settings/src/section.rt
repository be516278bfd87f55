//! The sections of the settings that are not lists.
use crate::port::{Listener, Peer};
use crate::text::Text;
use std::net::{IpAddr, SocketAddr};

/// The uplink that frames go to.
#[derive(Clone, Copy, Debug)]
pub struct Uplink {
    pub to: Peer,
    /// Bytes of frames a second, if they are limited.
    pub rate: Option<u64>,
    /// Bytes of the socket's send buffer.
    pub buffer: u64,
}

/// The content of the text of a book.
#[derive(Clone, Copy, Debug, PartialEq, Eq)]
pub enum BookText {
    /// The lengths of payloads.
    Lengths,
    /// Whole payloads.
    Whole,
}

/// The folder of the books, their text and their bounds.
#[derive(Debug, Drop)]
pub struct Books {
    pub folder: Text,
    pub text: BookText,
    /// The most events of a book.
    pub events: u64,
    /// The seconds after which a book is closed, if time closes it.
    pub period: Option<u64>,
}

/// The listener at which control lines come in.
#[derive(Debug, Drop)]
pub struct Control {
    pub listen: Listener,
    /// The mode of a Unix socket.
    pub mode: u32,
}

/// The listener at which the frames of another gateway come in.
#[derive(Clone, Copy, Debug)]
pub struct Downlink {
    pub listen: Peer,
    /// The address from which alone connections are taken, if they are limited.
    pub from: Option<IpAddr>,
}

/// The listener of browsers and of scrapes of metrics.
#[derive(Clone, Copy, Debug)]
pub struct Web {
    pub listen: SocketAddr,
}
