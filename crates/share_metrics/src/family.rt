//! The families of metrics: their names, what they say, and their values.
ghost use Rattle.std.specs.Prelude.{◌≡◌};
ghost use Rattle.share_metrics.specs.Families.{downlink_value, gateway_help, gateway_name, gateway_value};
ghost use Rattle.share_metrics.specs.Families.{if_true, is_gateway_counter, is_taken, is_tenant_counter, is_up};
ghost use Rattle.share_metrics.specs.Families.{tenant_help, tenant_name, tenant_value, uplink_value};

use share_status::{
    DiskStatus, DownlinkState, DownlinkStatus, Status, TenantStatus, UplinkState, UplinkStatus,
};

/// A family of metrics that has at most one value.
#[derive(Clone, Copy, Debug, PartialEq, Eq)]
pub enum GatewayFamily {
    Book,
    BookEvents,
    EventsLeft,
    UplinkUp,
    UplinkSentBytes,
    UplinkWaitingBytes,
    UplinkLostBytes,
    UplinkRate,
    DiskWaitingBytes,
    DiskFails,
    DownlinkUp,
    DownlinkFrames,
    DownlinkBytes,
    DownlinkStrangers,
}

/// A family of metrics that has a value for each tenant.
#[derive(Clone, Copy, Debug, PartialEq, Eq)]
pub enum TenantFamily {
    Tickets,
    Held,
    WaitingPackets,
    BufferPackets,
    TakenPackets,
    TakenBytes,
    SentPackets,
    SentBytes,
    BookAmount,
    Connections,
    DroppedPackets,
    LostPackets,
}

/// The families in their order.
pub(crate) const GATEWAY_FAMILIES: [GatewayFamily; 14] = [
    GatewayFamily::Book,
    GatewayFamily::BookEvents,
    GatewayFamily::EventsLeft,
    GatewayFamily::UplinkUp,
    GatewayFamily::UplinkSentBytes,
    GatewayFamily::UplinkWaitingBytes,
    GatewayFamily::UplinkLostBytes,
    GatewayFamily::UplinkRate,
    GatewayFamily::DiskWaitingBytes,
    GatewayFamily::DiskFails,
    GatewayFamily::DownlinkUp,
    GatewayFamily::DownlinkFrames,
    GatewayFamily::DownlinkBytes,
    GatewayFamily::DownlinkStrangers,
];

/// The families by tenant in their order.
pub(crate) const TENANT_FAMILIES: [TenantFamily; 12] = [
    TenantFamily::Tickets,
    TenantFamily::Held,
    TenantFamily::WaitingPackets,
    TenantFamily::BufferPackets,
    TenantFamily::TakenPackets,
    TenantFamily::TakenBytes,
    TenantFamily::SentPackets,
    TenantFamily::SentBytes,
    TenantFamily::BookAmount,
    TenantFamily::Connections,
    TenantFamily::DroppedPackets,
    TenantFamily::LostPackets,
];

impl GatewayFamily {
    /// Its name.
    pub(crate) fn name(self) -> &'static [u8]
        ensures { result.now ≡ gateway_name self }
    {
        match self {
            GatewayFamily::Book => b"stridelink_book",
            GatewayFamily::BookEvents => b"stridelink_book_events",
            GatewayFamily::EventsLeft => b"stridelink_events_left",
            GatewayFamily::UplinkUp => b"stridelink_uplink_up",
            GatewayFamily::UplinkSentBytes => b"stridelink_uplink_sent_bytes",
            GatewayFamily::UplinkWaitingBytes => b"stridelink_uplink_waiting_bytes",
            GatewayFamily::UplinkLostBytes => b"stridelink_uplink_lost_bytes",
            GatewayFamily::UplinkRate => b"stridelink_uplink_limit_bytes",
            GatewayFamily::DiskWaitingBytes => b"stridelink_disk_waiting_bytes",
            GatewayFamily::DiskFails => b"stridelink_disk_fails",
            GatewayFamily::DownlinkUp => b"stridelink_downlink_up",
            GatewayFamily::DownlinkFrames => b"stridelink_downlink_frames",
            GatewayFamily::DownlinkBytes => b"stridelink_downlink_bytes",
            GatewayFamily::DownlinkStrangers => b"stridelink_downlink_strangers",
        }
    }

    /// The text that says what it is.
    pub(crate) fn help(self) -> &'static [u8]
        ensures { result.now ≡ gateway_help self }
    {
        match self {
            GatewayFamily::Book => b"The number of the open book",
            GatewayFamily::BookEvents => b"Events of the open book",
            GatewayFamily::EventsLeft => b"Events that the open book has room for",
            GatewayFamily::UplinkUp => b"1 if the uplink is connected, and 0 if it is dialled",
            GatewayFamily::UplinkSentBytes => b"Bytes of frames that the uplink took",
            GatewayFamily::UplinkWaitingBytes => b"Bytes of frames that wait for the uplink",
            GatewayFamily::UplinkLostBytes => b"Bytes of frames that may be lost with connections",
            GatewayFamily::UplinkRate => b"Bytes of frames a second at most",
            GatewayFamily::DiskWaitingBytes => b"Bytes of books that wait for the disk",
            GatewayFamily::DiskFails => b"1 if the disk fails, and 0 if it writes",
            GatewayFamily::DownlinkUp =>
                b"1 if a gateway is connected to the downlink, and 0 if none is",
            GatewayFamily::DownlinkFrames => b"Frames that came by the downlink",
            GatewayFamily::DownlinkBytes => b"Bytes of frames that came by the downlink",
            GatewayFamily::DownlinkStrangers => b"Frames that had the number of no tenant",
        }
    }

    /// Whether it counts up.
    pub(crate) fn is_counter(self) -> bool
        ensures { result ≡ is_gateway_counter self }
    {
        match self {
            GatewayFamily::UplinkSentBytes
            | GatewayFamily::UplinkLostBytes
            | GatewayFamily::DownlinkFrames
            | GatewayFamily::DownlinkBytes
            | GatewayFamily::DownlinkStrangers => true,
            _ => false,
        }
    }

    /// Its value. It has none without an uplink, a rate or a downlink.
    pub(crate) fn value(self, status: &Status<'_>) -> Option<u64>
        ensures { result ≡ gateway_value self status.now }
    {
        match self {
            GatewayFamily::Book => Some(status.book),
            GatewayFamily::BookEvents => Some(status.events),
            GatewayFamily::EventsLeft => Some(status.left),
            GatewayFamily::UplinkUp
            | GatewayFamily::UplinkSentBytes
            | GatewayFamily::UplinkWaitingBytes
            | GatewayFamily::UplinkLostBytes => self.uplink_value(&status.uplink),
            GatewayFamily::UplinkRate => status.rate,
            GatewayFamily::DiskWaitingBytes => Some(status.disk.waiting),
            GatewayFamily::DiskFails => Some(if_true(status.disk.fault.is_some())),
            GatewayFamily::DownlinkUp
            | GatewayFamily::DownlinkFrames
            | GatewayFamily::DownlinkBytes
            | GatewayFamily::DownlinkStrangers => self.downlink_value(&status.downlink),
        }
    }

    fn uplink_value(self, uplink: &Option<UplinkStatus>) -> Option<u64>
        ensures { result ≡ uplink_value self uplink.now }
    {
        let uplink = (*uplink)?;
        match self {
            GatewayFamily::UplinkUp => Some(if_true(is_up(uplink.state))),
            GatewayFamily::UplinkSentBytes => Some(uplink.sent),
            GatewayFamily::UplinkWaitingBytes => Some(uplink.outbox),
            GatewayFamily::UplinkLostBytes => Some(uplink.lost),
            _ => None,
        }
    }

    fn downlink_value(self, downlink: &Option<DownlinkStatus>) -> Option<u64>
        ensures { result ≡ downlink_value self downlink.now }
    {
        let downlink = (*downlink)?;
        match self {
            GatewayFamily::DownlinkUp => Some(if_true(is_taken(downlink.state))),
            GatewayFamily::DownlinkFrames => Some(downlink.frames),
            GatewayFamily::DownlinkBytes => Some(downlink.bytes),
            GatewayFamily::DownlinkStrangers => Some(downlink.strangers),
            _ => None,
        }
    }
}

fn is_up(state: UplinkState) -> bool
    ensures { result ≡ is_up state }
{
    match state {
        UplinkState::Up => true,
        UplinkState::Dialling => false,
    }
}

// Whether a gateway is connected to the downlink.
fn is_taken(state: DownlinkState) -> bool
    ensures { result ≡ is_taken state }
{
    match state {
        DownlinkState::Up => true,
        DownlinkState::Listening => false,
    }
}

// 1 stands for true, and 0 for false.
fn if_true(is: bool) -> u64
    ensures { result ≡ if_true is }
{
    if is { 1 } else { 0 }
}

impl TenantFamily {
    /// Its name.
    pub(crate) fn name(self) -> &'static [u8]
        ensures { result.now ≡ tenant_name self }
    {
        match self {
            TenantFamily::Tickets => b"stridelink_tenant_tickets",
            TenantFamily::Held => b"stridelink_tenant_held",
            TenantFamily::WaitingPackets => b"stridelink_tenant_waiting_packets",
            TenantFamily::BufferPackets => b"stridelink_tenant_buffer_packets",
            TenantFamily::TakenPackets => b"stridelink_tenant_taken_packets",
            TenantFamily::TakenBytes => b"stridelink_tenant_taken_bytes",
            TenantFamily::SentPackets => b"stridelink_tenant_sent_packets",
            TenantFamily::SentBytes => b"stridelink_tenant_sent_bytes",
            TenantFamily::BookAmount => b"stridelink_tenant_book_amount",
            TenantFamily::Connections => b"stridelink_tenant_connections",
            TenantFamily::DroppedPackets => b"stridelink_tenant_dropped_packets",
            TenantFamily::LostPackets => b"stridelink_tenant_lost_packets",
        }
    }

    /// The text that says what it is.
    pub(crate) fn help(self) -> &'static [u8]
        ensures { result.now ≡ tenant_help self }
    {
        match self {
            TenantFamily::Tickets => b"Tickets of the tenant",
            TenantFamily::Held => b"1 if the tenant is held, and 0 if not",
            TenantFamily::WaitingPackets => b"Packets in the buffer of the tenant",
            TenantFamily::BufferPackets => b"Packets that the buffer of the tenant holds",
            TenantFamily::TakenPackets => b"Packets that the ports of the tenant took",
            TenantFamily::TakenBytes => b"Bytes of these packets",
            TenantFamily::SentPackets => b"Packets of the tenant that were scheduled",
            TenantFamily::SentBytes => b"Bytes of the frames of these packets",
            TenantFamily::BookAmount => b"The account of the tenant in the open book",
            TenantFamily::Connections => b"Connections of the tenant",
            TenantFamily::DroppedPackets => b"Packets that the ports of the tenant dropped",
            TenantFamily::LostPackets =>
                b"Packets from the downlink that the ports of the tenant lost",
        }
    }

    /// Whether it counts up.
    pub(crate) fn is_counter(self) -> bool
        ensures { result ≡ is_tenant_counter self }
    {
        match self {
            TenantFamily::TakenPackets
            | TenantFamily::TakenBytes
            | TenantFamily::SentPackets
            | TenantFamily::SentBytes
            | TenantFamily::DroppedPackets
            | TenantFamily::LostPackets => true,
            _ => false,
        }
    }

    /// The value of a tenant.
    pub(crate) fn value(self, tenant: &TenantStatus<'_>) -> u64
        ensures { result ≡ tenant_value self tenant.now }
    {
        match self {
            TenantFamily::Tickets => u64::from(tenant.tickets),
            TenantFamily::Held => if_true(tenant.held),
            TenantFamily::WaitingPackets => u64::from(tenant.waiting),
            TenantFamily::BufferPackets => tenant.limit,
            TenantFamily::TakenPackets => tenant.taken_packets,
            TenantFamily::TakenBytes => tenant.taken_bytes,
            TenantFamily::SentPackets => tenant.sent_packets,
            TenantFamily::SentBytes => tenant.sent_bytes,
            TenantFamily::BookAmount => tenant.amount,
            TenantFamily::Connections => tenant.connections,
            TenantFamily::DroppedPackets => tenant.dropped,
            TenantFamily::LostPackets => tenant.lost,
        }
    }
}
