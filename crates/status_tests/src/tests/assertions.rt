//! Assertions that name their row, and names.

use share_base::Name;
use std::fmt::Debug;
use std::process::Abort;

/// The row's value is the wanted one.
pub(super) fn same<R: Debug + Copy, T: PartialEq + Debug + Drop>(
    rt: &impl Abort,
    row: R,
    got: T,
    wanted: T,
) {
    assert!(rt; got == wanted, "{row:?}: {got:?}, wanted {wanted:?}");
}

/// The name with these letters.
pub(super) fn name_of(rt: &impl Abort, letters: &str) -> Name {
    Name::read(letters.as_bytes()).expect(rt, "a name")
}

/// The name with these letters, if there are any.
pub(super) fn tenant_of(rt: &impl Abort, letters: &str) -> Option<Name> {
    if letters.is_empty() {
        None
    } else {
        Some(name_of(rt, letters))
    }
}
