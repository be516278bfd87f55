//! Assertions that name their row.

use std::fmt::Debug;
use std::process::Abort;
use std::str::from_utf8;

/// The row's value is the wanted one.
pub(super) fn same<R: Debug + Copy, T: PartialEq + Debug + Drop>(
    rt: &impl Abort,
    row: R,
    got: T,
    wanted: T,
) {
    assert!(rt; got == wanted, "{row:?}: {got:?}, wanted {wanted:?}");
}

/// The claim of the row holds.
pub(super) fn holds<R: Debug + Copy>(rt: &impl Abort, row: R, is: bool) {
    assert!(rt; is, "{row:?}");
}

/// A run ends so, and this text is printed.
pub(super) fn prints<R: Debug + Copy, E: PartialEq + Debug + Drop>(
    rt: &impl Abort,
    row: R,
    got: (E, &[u8]),
    wanted: (E, &[u8]),
) {
    let text = from_utf8(got.1).unwrap_or("no text");
    let wanted_text = from_utf8(wanted.1).unwrap_or("no text");
    same(rt, row, (got.0, text), (wanted.0, wanted_text));
}
