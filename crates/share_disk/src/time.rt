//! Times of rows by the system's clock.

use jiff::Timestamp;
use jiff::tz::Offset;
use share_catalog::Time;
use std::time::SystemTime;

/// The second of universal time in which a moment is. `None` after the year 9999.
pub fn time_of(moment: SystemTime) -> Option<Time> {
    let timestamp = Timestamp::try_from(moment).ok()?;
    let shown = Offset::UTC.to_datetime(timestamp);
    Time::new(
        u16::try_from(shown.year()).ok()?,
        u8::try_from(shown.month()).ok()?,
        u8::try_from(shown.day()).ok()?,
        u8::try_from(shown.hour()).ok()?,
        u8::try_from(shown.minute()).ok()?,
        u8::try_from(shown.second()).ok()?,
    )
}
