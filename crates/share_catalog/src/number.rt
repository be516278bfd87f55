//! Decimal numbers.
ghost use Rattle.std.specs.Prelude.{◌≡◌, ◌<◌, ◌≤◌, ◌+◌, ◌*◌, ◌-◌, ◌^◌, Some, decimal, IfSome};
ghost use Rattle.std.specs.Option.{SomeIff};
ghost use Rattle.std.specs.Str.Parse.{AllDigits, digits_value};
ghost use Rattle.share_catalog.specs.Reads.{Reads, ReadsNext};
ghost use Rattle.share_catalog.specs.Texts.{IsNumber};

use crate::fields::Fields;
use itoa::Buffer;

/// The number whose decimal this is, and of no other bytes.
pub(crate) fn read_number(word: &[u8]) -> Option<u64>
    ensures { Reads decimal IsNumber word.now result }
{
    let number = value_of(word)?;
    let mut digits = Buffer::new();
    if digits.format(number).as_bytes() == word {
        Some(number)
    } else {
        None
    }
}

/// Reads a number, the next piece. If that is not one, the pieces are not to be read on.
pub(crate) fn next_number<const SEPARATOR: u8>(pieces: &mut Fields<'_, SEPARATOR>) -> Option<u64>
    ensures { ReadsNext decimal IsNumber pieces.old pieces.new result }
{
    read_number(pieces.next()?)
}

/// The value of digits, zeros in front of them included. It may be any number for other bytes.
pub(crate) fn value_of(word: &[u8]) -> Option<u64>
    ensures { AllDigits 10 word.now → digits_value 10 word.now < 2 ^ 64 → result ≡ Some (digits_value 10 word.now) }
{
    let mut value: u64 = 0;
    for digit in word {
        if *digit < b'0' || b'9' < *digit {
            return None;
        }
        match with_digit(value, u64::from(*digit - b'0')) {
            None => return None,
            Some(next) => value = next,
        }
    }
    Some(value)
}

// The number with one more digit, if it is below 2^64.
fn with_digit(value: u64, digit: u64) -> Option<u64>
    ensures { SomeIff result (value * 10 + digit < 2 ^ 64) (value * 10 + digit) }
{
    value.checked_mul(10)?.checked_add(digit)
}
