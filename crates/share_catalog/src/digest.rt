//! The SHA-256 digest of a book's text.
ghost use Rattle.std.specs.Prelude.{◌≡◌, ◌≤◌, ◌↔◌, ◌∷◌, [], length, true, IsTrue};
ghost use Rattle.std.specs.List.{list_all};
ghost use Rattle.share_catalog.specs.Reads.{Reads};
ghost use Rattle.share_catalog.specs.Texts.{is_hex_digit, is_digest, digest_text, IsDigest};
ghost use Rattle.hex.specs.Hex.{encode_lower};

use hex::encode_to_slice;
use std::marker::Model;

/// The length of a digest in bytes.
const BYTES: usize = 32;

/// The number of digits that a digest has.
const DIGITS: usize = 64;

/// A digest, as 64 hexadecimal digits in lower case. A contract sees these digits.
#[derive(Clone, Copy, Debug)]
pub struct Digest {
    digits: [u8; DIGITS],
}

impl Model for Digest {
    ghost use Rattle.std.specs.Prelude.{◌≡◌, ℕ, List, length, true};
    ghost use Rattle.share_catalog.specs.Texts.{is_digest};

    ghost Value = { List ℕ };

    ghost view = { λ digest. digest.digits };

    ghost invariant = { λ digest. is_digest digest.digits ≡ true };

    ghost inverse = { λ ds. record { digits = ds } };
}

impl Digest {
    /// The digest with these digits. `None` if they are not 64 such digits.
    pub fn read(word: &[u8]) -> Option<Digest>
        ensures { Reads digest_text IsDigest word.now result }
    {
        if word.len() != DIGITS || !are_hex_digits(word) {
            return None;
        }
        let mut digits = [b'0'; DIGITS];
        digits.copy_from_slice(word);
        Some(Digest { digits })
    }

    /// The digest with these bytes, each as two digits, the high one first.
    pub fn of_bytes(bytes: [u8; BYTES]) -> Digest
        ensures { result ≡ encode_lower bytes }
    {
        Digest {
            digits: digits_of(bytes.as_slice()),
        }
    }

    /// Its digits.
    pub fn as_bytes(&self) -> &[u8]
        ensures bytes { result.now ≡ self.now }
        ensures long { length self.now ≡ DIGITS }
        ensures digest { IsDigest self.now }
    {
        &self.digits
    }
}

fn are_hex_digits(word: &[u8]) -> bool
    ensures { result ≡ list_all is_hex_digit word.now }
{
    word.iter().all(|byte| is_hex_digit(*byte))
}

fn is_hex_digit(byte: u8) -> bool
    ensures { result ≡ is_hex_digit byte }
{
    (b'0' <= byte && byte <= b'9') || (b'a' <= byte && byte <= b'f')
}

// The digits of 32 bytes.
fn digits_of(bytes: &[u8]) -> [u8; DIGITS]
    requires { length bytes.now ≡ BYTES }
    ensures digits { result ≡ encode_lower bytes.now }
    ensures digest { IsDigest (encode_lower bytes.now) }
{
    let mut digits = [b'0'; DIGITS];
    if encode_to_slice(bytes, digits.as_mut_slice()).is_err() {
        unreachable!();
    }
    digits
}
