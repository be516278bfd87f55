//! Payloads in hexadecimal, read sixteen bytes at a time.
ghost use Rattle.std.specs.Prelude.{◌≡◌, ◌<◌, ◌≤◌, ◌+◌, ◌*◌, ◌/◌, ◌%◌, ◌==◌, ◌&&◌, ℕ, None, Some, length, take, drop};
ghost use Rattle.std.specs.Prelude.{nat_le};
ghost use Rattle.std.specs.Prelude.{MatchOption, IfSome, slice_index};
ghost use Rattle.std.specs.List.{list_all};
ghost use Rattle.share_model.specs.text.Lines.{is_hex_digit, is_pairs, payload_of};
ghost use Rattle.share_text.specs.Digits.{value_or_255, DecodesUpTo};

use share_base::HEADER_ROOM;
use std::simd::prelude::*;

/// The number of bytes decoded at a time.
const BLOCK: usize = 16;

// The value of a byte as a digit; 255 if it is not one. A compiler takes these tests without a branch, which bytes at
// random would mislead.
fn digit(byte: u8) -> u8
    ensures { result ≡ value_or_255 byte }
{
    let decimal = byte.wrapping_sub(b'0');
    let letter = byte.wrapping_sub(b'a');
    if decimal < 10 {
        decimal
    } else if letter < 6 {
        letter + 10
    } else {
        255
    }
}

// Writes the bytes that a word spells in hexadecimal to the front of a buffer, and returns their number. `None` if the
// word spells none.
fn decode(word: &[u8], bytes: &mut [u8]) -> Option<usize>
    requires { length word.now ≤ 2 * length bytes.old }
    ensures payload { MatchOption result (payload_of word.now ≡ None)
        (λ count. payload_of word.now ≡ Some (take count bytes.new)) }
    ensures half { IfSome result (λ count. 2 * count ≡ length word.now) }
    ensures some { IfSome result (λ count. 1 ≤ count) }
{
    if !has_pairs(word) {
        return None;
    }
    let count = word.len() / 2;
    let mut greatest = 0;
    for block in 0..count / BLOCK {
        greatest = decode_block(word, bytes, BLOCK * block, greatest);
    }
    let greatest = decode_rest(word, bytes, BLOCK * (count / BLOCK), greatest);
    if greatest > 15 { None } else { Some(count) }
}

/// Decodes a word as `decode` does, after the room for a header.
#[inline(always)]
pub fn decode_behind(word: &[u8], bytes: &mut [u8]) -> Option<usize>
    requires { 2 * HEADER_ROOM + length word.now ≤ 2 * length bytes.old }
    ensures payload { MatchOption result (payload_of word.now ≡ None)
        (λ count. payload_of word.now ≡ Some (take count (drop HEADER_ROOM bytes.new))) }
    ensures half { IfSome result (λ count. 2 * count ≡ length word.now) }
    ensures some { IfSome result (λ count. 1 ≤ count) }
    ensures long { length bytes.new ≡ length bytes.old }
{
    decode(word, &mut bytes[HEADER_ROOM..])
}

// Decodes the sixteen bytes from a place on, and answers the greatest value of a digit up to their end.
fn decode_block(word: &[u8], bytes: &mut [u8], at: usize, greatest: u8) -> u8
    requires inside { 2 * at + 2 * BLOCK ≤ length word.now }
    requires room { at + BLOCK ≤ length bytes.old }
    requires before { DecodesUpTo word.now bytes.old at greatest }
    ensures { DecodesUpTo word.now bytes.new (at + BLOCK) result }
{
    let (highs, lows) = digits_apart(word, at);
    let mut greatest = greatest;
    for place in 0..BLOCK {
        let high = digit(highs[place]);
        let low = digit(lows[place]);
        greatest = high.max(low).max(greatest);
        bytes[at + place] = high.wrapping_mul(16).wrapping_add(low);
    }
    greatest
}

// The first digits of sixteen bytes from a place on, and their second digits. A compiler that has them apart works on
// all of them at once.
fn digits_apart(word: &[u8], at: usize) -> ([u8; 16], [u8; 16])
    requires { 2 * at + 2 * BLOCK ≤ length word.now }
    ensures first { (k : ℕ) → k < BLOCK → slice_index result.0 k ≡ slice_index word.now (2 * (at + k)) }
    ensures second { (k : ℕ) → k < BLOCK → slice_index result.1 k ≡ slice_index word.now (2 * (at + k) + 1) }
{
    let digits = u8x32::from_slice(&word[2 * at..]);
    let first: u8x16 = digits.swizzle([0, 2, 4, 6, 8, 10, 12, 14, 16, 18, 20, 22, 24, 26, 28, 30]);
    let second: u8x16 = digits.swizzle([1, 3, 5, 7, 9, 11, 13, 15, 17, 19, 21, 23, 25, 27, 29, 31]);
    (first.to_array(), second.to_array())
}

// Decodes the bytes from a place on, and answers the greatest value of a digit.
fn decode_rest(word: &[u8], bytes: &mut [u8], from: usize, greatest: u8) -> u8
    requires even { length word.now % 2 ≡ 0 }
    requires inside { 2 * from ≤ length word.now }
    requires room { length word.now ≤ 2 * length bytes.old }
    requires before { DecodesUpTo word.now bytes.old from greatest }
    ensures { DecodesUpTo word.now bytes.new (length word.now / 2) result }
{
    let mut greatest = greatest;
    for place in from..word.len() / 2 {
        let high = digit(word[2 * place]);
        let low = digit(word[2 * place + 1]);
        greatest = high.max(low).max(greatest);
        bytes[place] = high.wrapping_mul(16).wrapping_add(low);
    }
    greatest
}

/// Whether a word spells bytes in hexadecimal.
pub fn is_payload(word: &[u8]) -> bool
    ensures { result ≡ (nat_le 2 (length word.now) && is_pairs word.now) }
{
    if !has_pairs(word) {
        return false;
    }
    has_digits(word)
}

fn has_pairs(word: &[u8]) -> bool
    ensures { result ≡ (nat_le 2 (length word.now) && length word.now % 2 == 0) }
{
    word.len() >= 2 && word.len() % 2 == 0
}

fn has_digits(word: &[u8]) -> bool
    ensures { result ≡ list_all is_hex_digit word.now }
{
    word.iter().all(|byte| digit(*byte) < 16)
}
