//! The fields of a head.
ghost use Rattle.std.specs.Prelude.{◌≡◌, count_by, map};
ghost use Rattle.std.specs.List.{list_any};
ghost use Rattle.httparse.specs.Borrowed.{header_parts};
ghost use Rattle.share_web.specs.Fields.{accepts_open_metrics, count_named, has_host_at, is_at, is_host_at, is_named};
ghost use Rattle.share_web.specs.Fields.{is_same_name, wants_open_metrics};

use httparse::Header;

/// The number of fields that have this name, in large or small letters.
pub(crate) fn count_named(name: &[u8], headers: &[Header<'_>]) -> usize
    ensures { result ≡ count_named name.now (map header_parts headers.now) }
{
    count_parsed(name, headers)
}

/// Whether some field is a Host that is this address.
pub(crate) fn has_host_at(address: &[u8], headers: &[Header<'_>]) -> bool
    ensures { result ≡ has_host_at address.now (map header_parts headers.now) }
{
    any_host_at(address, headers)
}

/// Whether some field asks for OpenMetrics before all else.
pub(crate) fn wants_open_metrics(headers: &[Header<'_>]) -> bool
    ensures { result ≡ wants_open_metrics (map header_parts headers.now) }
{
    any_accepts_open_metrics(headers)
}

fn count_parsed(name: &[u8], headers: &[Header<'_>]) -> usize
    ensures { result ≡ count_by (λ header. is_named name.now (header_parts header)) headers.now }
{
    headers
        .iter()
        .filter(|header| is_named(name, header))
        .count()
}

fn any_host_at(address: &[u8], headers: &[Header<'_>]) -> bool
    ensures { result ≡ list_any (λ header. is_host_at address.now (header_parts header)) headers.now }
{
    headers.iter().any(|header| is_host_at(address, header))
}

fn any_accepts_open_metrics(headers: &[Header<'_>]) -> bool
    ensures { result ≡ list_any (λ header. accepts_open_metrics (header_parts header)) headers.now }
{
    headers.iter().any(|header| accepts_open_metrics(header))
}

fn is_named(name: &[u8], header: &Header<'_>) -> bool
    ensures { result ≡ is_named name.now (header_parts header.now) }
{
    is_same_name(header.name.as_bytes(), name)
}

fn is_same_name(name: &[u8], other: &[u8]) -> bool
    ensures { result ≡ is_same_name name.now other.now }
{
    name.eq_ignore_ascii_case(other)
}

// Whether a field is a Host that is this address.
fn is_host_at(address: &[u8], header: &Header<'_>) -> bool
    ensures { result ≡ is_host_at address.now (header_parts header.now) }
{
    is_named(b"host", header) && is_at(address, header.value)
}

// Whether a Host is this address. The port of HTTP may be left out.
fn is_at(address: &[u8], host: &[u8]) -> bool
    ensures { result ≡ is_at address.now host.now }
{
    host == address || (address.ends_with(b":80") && host == &address[..address.len() - 3])
}

// Whether a field asks for OpenMetrics before all else.
fn accepts_open_metrics(header: &Header<'_>) -> bool
    ensures { result ≡ accepts_open_metrics (header_parts header.now) }
{
    is_named(b"accept", header) && header.value.starts_with(b"application/openmetrics-text")
}
