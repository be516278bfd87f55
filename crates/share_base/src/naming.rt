//! The names of currencies and flows.
ghost use Rattle.std.specs.Prelude.{◌≡◌, ◌<◌, ◌≤◌, [], ◌∷◌, length, slice_index, nat_eq, true, Some, None, refl};
ghost use Rattle.std.specs.Prelude.{if◌then◌else◌};
ghost use Rattle.std.specs.List.{list_all};
ghost use Rattle.std.specs.Ordering.{nat_cmp};
ghost use Rattle.std.specs.Cmp.Lexicographic.{pointwise, slice_cmp};
ghost use Rattle.std.specs.Cmp.Lexicographic.{nat_list_eq_equiv, nat_list_cmp_total, texts_ties, texts_po, same_text};
ghost use Rattle.std.specs.Cmp.{partial_equiv_from_equiv};
ghost use Rattle.std.proofs.Common.{ap, sym};
ghost use Rattle.share_base.specs.Name.{is_letter, is_name_byte, is_name, sixteen_bytes_of};

use std::cmp::Ordering;
use std::hash::{Hash, Hasher};
use std::marker::Model;

/// The longest name, in bytes.
pub const MAX_NAME: usize = 16;

/// The name of a currency or a flow. It is a letter from `a` to `z`, and then at most 15 more of these letters, digits,
/// `_` or `-`. A contract sees it as its bytes.
#[derive(Clone, Copy, Debug)]
pub struct Name {
    bytes: [u8; MAX_NAME],
    len: usize,
}

impl Model for Name {
    ghost use Rattle.std.specs.Prelude.{◌≡◌, ℕ, List, length, take, true};
    ghost use Rattle.share_base.specs.Name.{sixteen_bytes_of, is_name};

    ghost Value = { List ℕ };

    ghost view = { λ name. take name.len name.bytes };

    ghost invariant = { λ name.
        (length (take name.len name.bytes) ≡ name.len)
        × (sixteen_bytes_of (take name.len name.bytes) ≡ name.bytes)
        × (is_name (take name.len name.bytes) ≡ true) };

    ghost inverse = { λ bs. record { bytes = sixteen_bytes_of bs; len = length bs } };

    ghost inverse_ok = { λ a h i. record { bytes = h.1 i; len = h.0 i } };
}

impl Name {
    /// Reads a name from its bytes. `None` if they spell no name.
    pub fn read(bytes: &[u8]) -> Option<Name>
        ensures { result ≡ (if is_name bytes.now then Some bytes.now else None) }
    {
        if !begins_well(bytes) || bytes.len() > MAX_NAME {
            return None;
        }
        match copy_of(bytes) {
            None => None,
            Some(copy) => Some(Name {
                bytes: copy,
                len: bytes.len(),
            }),
        }
    }

    /// The bytes of the name.
    pub fn as_bytes(&self) -> &[u8]
        ensures value { result.now ≡ self.now }
        ensures short { length self.now ≤ MAX_NAME }
        ensures name { is_name self.now ≡ true }
    {
        &self.bytes[..self.len]
    }
}

fn begins_well(bytes: &[u8]) -> bool
    ensures { result ≡ is_letter (slice_index bytes.now 0) }
{
    match bytes.first() {
        None => false,
        Some(first) => is_letter(*first),
    }
}

// The bytes of a name, and zeros after them. `None` if a byte may not be in a name. One loop tests and copies: a name
// is short, and a call to copy it would take longer.
fn copy_of(bytes: &[u8]) -> Option<[u8; MAX_NAME]>
    requires { length bytes.now ≤ MAX_NAME }
    ensures { result ≡ (if list_all is_name_byte bytes.now then Some (sixteen_bytes_of bytes.now) else None) }
{
    let mut copy = [0; MAX_NAME];
    for place in 0..bytes.len() {
        if !is_name_byte(bytes[place]) {
            return None;
        }
        copy[place] = bytes[place];
    }
    Some(copy)
}

fn is_letter(byte: u8) -> bool
    ensures { result ≡ is_letter byte }
{
    b'a' <= byte && byte <= b'z'
}

fn is_name_byte(byte: u8) -> bool
    ensures { result ≡ is_name_byte byte }
{
    is_letter(byte) || (b'0' <= byte && byte <= b'9') || byte == b'_' || byte == b'-'
}

// Whether all sixteen bytes are equal. They are compared without a branch for each.
fn are_same(bytes: &[u8; MAX_NAME], others: &[u8; MAX_NAME]) -> bool
    ensures { result ≡ pointwise nat_eq bytes.now others.now }
{
    let mut same = true;
    for place in 0..MAX_NAME {
        same &= bytes[place] == others[place];
    }
    same
}

impl PartialEq for Name {
    ghost eq = { pointwise nat_eq };

    ghost laws = { partial_equiv_from_equiv nat_list_eq_equiv };

    fn eq(&self, other: &Name) -> bool {
        self.len == other.len && are_same(&self.bytes, &other.bytes)
    }
}

impl Eq for Name {
    ghost laws = { nat_list_eq_equiv };
}

impl PartialOrd for Name {
    ghost partial_cmp = { λ x y. Some (slice_cmp nat_cmp x y) };

    ghost laws = { texts_po };

    fn partial_cmp(&self, other: &Name) -> Option<Ordering> {
        Some(self.cmp(other))
    }
}

impl Ord for Name {
    ghost cmp = { slice_cmp nat_cmp };

    ghost total = { nat_list_cmp_total };

    ghost matches_partial_cmp = { λ x y. refl };

    ghost matches_eq = { texts_ties };

    fn cmp(&self, other: &Name) -> Ordering {
        self.as_bytes().cmp(other.as_bytes())
    }
}

impl Hash for Name {
    ghost hash_input = { λ name. sixteen_bytes_of name ∷ [] };

    ghost respects_eq = { λ x y same. ap (λ name. sixteen_bytes_of name ∷ []) (same_text x y (sym same)) };

    // All sixteen bytes are written at once: a slice of bytes writes its length, and then each of them by itself.
    fn hash<H: Hasher>(&self, state: &mut H) {
        state.write(&self.bytes);
    }
}
