//! The number of rows in a reply, and whether it is a refusal. A row is given without its line feed.
ghost use Rattle.std.specs.Prelude.{◌≡◌, codes, nat_eq};
ghost use Rattle.std.specs.List.{starts_with};
ghost use Rattle.share_asking.specs.Replies.{goes_on, is_end};

/// The line that is answered by a report.
const REPORT: &[u8] = b"report";

/// The last row of a report.
const END: &[u8] = b"end";

/// The beginning of a refusal.
const NO: &[u8] = b"no ";

/// Whether a reply that begins with this row is a refusal.
pub fn is_refusal(row: &[u8]) -> bool
    ensures { result ≡ starts_with nat_eq row.now (codes "no ") }
{
    row.starts_with(NO)
}

/// Whether this row is the last one of a report.
pub fn is_end(row: &[u8]) -> bool
    ensures { result ≡ is_end row.now }
{
    row == END
}

/// Whether the reply to a line goes on after this row, its first one. A report does, unless that row is a refusal or
/// the end.
pub fn goes_on(line: &[u8], row: &[u8]) -> bool
    ensures { result ≡ goes_on line.now row.now }
{
    line == REPORT && !is_refusal(row) && !is_end(row)
}
