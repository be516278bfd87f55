//! Assertions that name their row.

use std::fmt::Debug;
use std::process::Abort;

/// The row's value is the wanted one.
pub(super) fn same<R: Debug + Copy, T: PartialEq + Debug + Drop>(
    rt: &impl Abort,
    row: R,
    got: T,
    wanted: T,
) {
    assert!(rt; got == wanted, "{row:?}: {got:?}, wanted {wanted:?}");
}

/// The claim of the row holds.
pub(super) fn holds<R: Debug + Copy>(rt: &impl Abort, row: R, is: bool) {
    assert!(rt; is, "{row:?}");
}
