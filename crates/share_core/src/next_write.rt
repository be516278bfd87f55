//! The write that is due.

/// The frame that a write goes on with. It has the handle of its flow's buffer, the sequence number of its packet, and
/// the number of its flow's tariff. It has the number of its bytes that are out, and its length.
#[derive(Clone, Copy, Debug)]
pub struct NextWrite {
    pub buffer: share_flows::BufferHandle,
    pub seq: u32,
    pub tariff: u8,
    pub out: u32,
    pub length: u32,
}
