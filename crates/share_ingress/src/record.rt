//! The front of the bytes of a stream.
ghost use Rattle.std.specs.Prelude.{◌≡◌, ◌∷◌, ◌++◌, true, length};
ghost use Rattle.share_base.specs.Name.{is_name};
ghost use Rattle.share_ingress.specs.Found.{IsFound};

use share_base::{MAX_NAME, MAX_PAYLOAD, Name};

/// The number of bytes that a record has besides its name and its payload.
pub const FRAMING: usize = 3;

/// The front of bytes.
pub enum Found {
    /// A whole record with this name and a payload of this length.
    Whole(Name, usize),
    /// A whole field that is out of its range.
    Bad,
    /// Nothing, or a part of a record.
    Part,
}

/// Says what bytes begin with. Fields are read in order, and each is checked when it is whole.
pub fn first_record(bytes: &[u8]) -> Found
    ensures { IsFound bytes.now result }
{
    let Some(first) = bytes.first() else {
        return Found::Part;
    };
    let length = usize::from(*first);
    if length == 0 || length > MAX_NAME {
        return Found::Bad;
    }
    if bytes.len() < 1 + length {
        return Found::Part;
    }
    match Name::read(&bytes[1..1 + length]) {
        None => Found::Bad,
        Some(name) => after_name(name, &bytes[1 + length..]),
    }
}

// The same, of a name and the bytes after it.
fn after_name(name: Name, tail: &[u8]) -> Found
    requires { is_name name ≡ true }
    ensures { IsFound ((length name ∷ name) ++ tail.now) result }
{
    if tail.len() < 2 {
        return Found::Part;
    }
    let size = usize::from(tail[0]) * 256 + usize::from(tail[1]);
    if size == 0 || size > MAX_PAYLOAD {
        return Found::Bad;
    }
    if tail.len() < 2 + size {
        return Found::Part;
    }
    Found::Whole(name, size)
}
