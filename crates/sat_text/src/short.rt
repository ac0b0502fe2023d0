//! Numbers of at most seven digits, which are read at once: how many digits there are is found without a loop, whose end the
//! processor would have to guess. Most numbers of a proof are such.
ghost use Rattle.std.specs.Prelude.{◌≡◌, ◌<◌, ◌≤◌, ◌∷◌, ℕ, List, true, map, take, length, IfSome, Some};
ghost use Rattle.std.specs.Char.{is_ascii_digit};
ghost use Rattle.std.specs.List.{prefix_len, list_all};
ghost use Rattle.std.specs.Simd.Lanes.{mask_l, number_l, Each1};
ghost use Rattle.sat_text.specs.Words.{natural_of};
ghost use Rattle.sat_text.specs.own.Cut.{is_other, digits_front, after_digits};
ghost use Rattle.sat_text.specs.own.Short.{eight_of, told_by};

use std::simd::prelude::*;

// Which of eight bytes are no digits, a bit for each.
#[inline(always)]
fn others_in(bytes: u8x8) -> u64
    ensures { result ≡ mask_l (map is_other bytes) }
{
    (bytes - u8x8::splat(48))
        .simd_ge(u8x8::splat(10))
        .to_bitmask()
}

// How many of eight bytes, from the first on, are digits.
#[inline(always)]
fn digits_in(bytes: u8x8) -> u32
    ensures count { result ≡ prefix_len is_ascii_digit bytes }
    ensures most { result ≤ 8 }
{
    let others = others_in(bytes);
    if others == 0 {
        8
    } else {
        others.trailing_zeros()
    }
}

// The values of the first of eight bytes, so many, which are digits, with zeros before them: they are the bytes of a number, the
// first the lowest.
#[inline(always)]
fn eight_digits(bytes: u8x8, count: u32) -> u64
    requires some { 0 < count }
    requires few { count < 8 }
    requires digits { list_all is_ascii_digit (take count bytes) ≡ true }
    ensures value { result ≡ number_l 256 (eight_of count bytes) }
    ensures small { result < 1152921504606846976 }
{
    let up = 64 - 8 * count;
    (u64::from_le_bytes(bytes.to_array()) << up) - (0x3030303030303030 << up)
}

// The number that eight digits write, whose values are the bytes of a number, the first the lowest.
#[inline(always)]
fn number_of_eight(eight: u64) -> u64
    requires { eight < 1152921504606846976 }
    ensures value { (digits : List ℕ) → length digits ≡ 8 → Each1 (λ digit. digit ≤ 9) digits → eight ≡ number_l 256 digits → result ≡ told_by digits }
    ensures small { result < 18446744073709551616 }
{
    let pairs = eight * 10 + eight / 256;
    let second = pairs / 65536;
    let third = second / 65536;
    let fourth = third / 65536;
    ((pairs % 256 * 100 + second % 256) * 100 + third % 256) * 100 + fourth % 256
}

// The number that the digits at the front of a text write, and what follows the space after them, where these are few digits
// without a leading zero. Where it is not told, there may be a number all the same.
#[inline(always)]
pub(crate) fn short_number(text: &[u8]) -> Option<(u64, &[u8])>
    ensures number { IfSome result (λ read. natural_of (digits_front text.now) ≡ Some read.0) }
    ensures rest { IfSome result (λ read. after_digits text.now ≡ 32 ∷ read.1.now) }
{
    if text.len() < 8 {
        return None;
    }
    let bytes = u8x8::from_slice(text);
    let count = digits_in(bytes);
    if count == 0 || count == 8 {
        return None;
    }
    if text[0] == b'0' || text[count as usize] != b' ' {
        return None;
    }
    let number = number_of_eight(eight_digits(bytes, count));
    Some((number, &text[count as usize + 1..]))
}
