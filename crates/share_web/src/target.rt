//! The resources that can be asked for.

/// The form of a text of metrics.
#[derive(Clone, Copy, Debug, PartialEq, Eq)]
pub enum Exposition {
    /// The text format of Prometheus, version 0.0.4.
    Plain,
    /// OpenMetrics, version 1.0.0.
    OpenMetrics,
}

/// A resource that a gateway serves.
#[derive(Clone, Copy, Debug, PartialEq, Eq)]
pub enum Resource {
    /// The page that a browser shows.
    Page,
    /// The status, as the control line of that name has it.
    Status,
    /// The rows of the last books.
    Books,
    Metrics(Exposition),
}

/// Why a request is refused.
#[derive(Clone, Copy, Debug, PartialEq, Eq)]
pub enum Refusal {
    BadRequest,
    NotFound,
    MethodNotAllowed,
    UriTooLong,
    MisdirectedRequest,
    HeadTooLarge,
    /// The gateway cannot answer at the moment.
    Unavailable,
    VersionNotSupported,
}

/// The resource that a request asks for, or why it is refused.
#[derive(Clone, Copy, Debug, PartialEq, Eq)]
pub enum Want {
    Resource(Resource),
    Refusal(Refusal),
}
