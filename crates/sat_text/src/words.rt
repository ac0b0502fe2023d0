//! The words of a line, which blanks part.
ghost use Rattle.std.specs.Prelude.{◌≡◌, ◌<◌, ◌==◌, ◌+◌, ◌*◌, ◌-◌, ◌≤◌, ◌∷◌, List, [], ℕ, Bool, IfSome, IfNone, IsSomeAnd, Some, None, true, false, codes, slice_index, take, drop, length, nat_lt, if◌then◌else◌};
ghost use Rattle.std.specs.Char.{is_ascii_digit};
ghost use Rattle.std.specs.Str.{bytes_eq};
ghost use Rattle.sat_text.specs.Words.{is_blank, words_of, value_of, value_with, natural_of, first_number, begins_with};
ghost use Rattle.sat_text.specs.own.Cut.{after_blanks, digits_front, after_digits, word_front, after_word, ends_word};

use crate::short::short_number;
use std::marker::Model;

/// So many digits write a number below 2^64, whatever they are.
const FEW: usize = 19;

/// A number in a line: decimal digits without a leading zero, after a minus or not.
#[derive(Clone, Copy)]
pub struct Signed {
    pub minus: bool,
    pub number: u64,
}

/// The bytes of a line, from a place on. Contracts see the words of them.
#[derive(Drop)]
pub struct Words<'a> {
    rest: &'a [u8],
}

impl<'a> Model for Words<'a> {
    ghost use Rattle.std.specs.Prelude.{List, ℕ};
    ghost use Rattle.sat_text.specs.Words.{words_of};

    ghost Value = { List (List ℕ) };

    ghost view = { λ w. words_of w.rest.now };
}

/// Whether a word is this one.
pub(crate) fn is(word: &[u8], other: &[u8]) -> bool
    ensures { result ≡ bytes_eq word.now other.now }
{
    word == other
}

// Whether a byte is a blank: a space, a tab or a carriage return.
#[inline]
fn is_blank(byte: u8) -> bool
    ensures { result ≡ is_blank byte }
{
    byte == b' ' || byte == b'\t' || byte == b'\r'
}

// What follows the blanks at the front of a text.
#[inline(always)]
fn after_blanks(bytes: &[u8]) -> &[u8]
    ensures { result.now ≡ after_blanks bytes.now }
{
    let mut rest = bytes;
    while let Some((byte, more)) = rest.split_first() {
        if !is_blank(*byte) {
            return rest;
        }
        rest = more;
    }
    rest
}

// Whether a word ends at the front of a text: there is nothing, or a blank.
#[inline]
fn ends_word(bytes: &[u8]) -> bool
    ensures { result ≡ ends_word bytes.now }
{
    match bytes.first() {
        Some(byte) => is_blank(*byte),
        None => true,
    }
}

// The number with one digit more; none from 2^64 on.
#[inline]
fn with_digit(number: u64, byte: u8) -> Option<u64>
    requires { is_ascii_digit byte ≡ true }
    ensures some { IfSome result (λ n. n ≡ number * 10 + (byte - 48)) }
    ensures small { IfSome result (λ n. n < 18446744073709551616) }
    ensures none { IfNone result (18446744073709551616 ≤ number * 10 + (byte - 48)) }
{
    number.checked_mul(10)?.checked_add(u64::from(byte - b'0'))
}

// The digit at the front of a text, and what follows it.
#[inline]
fn next_digit(text: &[u8]) -> Option<(u8, &[u8])>
    ensures some { IfSome result (λ read. (text.now ≡ read.0 ∷ read.1.now) × (is_ascii_digit read.0 ≡ true)) }
    ensures none { IfNone result ((digits_front text.now ≡ []) × (after_digits text.now ≡ text.now)) }
{
    let (first, more) = text.split_first()?;
    if first.is_ascii_digit() {
        Some((*first, more))
    } else {
        None
    }
}

// Whether so many digits have a zero before others.
#[inline]
fn has_leading_zero(digits: &[u8], count: usize) -> bool
    requires { count ≤ length digits.now }
    ensures yes { result ≡ true → (1 < count) × (slice_index digits.now 0 ≡ 48) }
    ensures no { result ≡ false → slice_index digits.now 0 ≡ 48 → count ≤ 1 }
{
    1 < count && digits[0] == b'0'
}

// The number that the digits at the front of a text write, up to 19 of them, and how many these are. None is too large for
// 64 bits, so that none is tested.
#[inline(always)]
fn few_digits(bytes: &[u8]) -> (u64, usize)
    ensures count { result.1 ≤ length bytes.now }
    ensures value { value_with result.0 (digits_front (drop result.1 bytes.now)) ≡ value_of (digits_front bytes.now) }
    ensures small { result.0 < 18446744073709551616 }
    ensures after { after_digits (drop result.1 bytes.now) ≡ after_digits bytes.now }
    ensures long { result.1 + length (digits_front (drop result.1 bytes.now)) ≡ length (digits_front bytes.now) }
    ensures ended { result.1 < 19 → digits_front (drop result.1 bytes.now) ≡ [] }
{
    let most = bytes.len().min(FEW);
    let mut number = 0;
    for place in 0..most {
        let byte = bytes[place];
        if !byte.is_ascii_digit() {
            return (number, place);
        }
        number = number * 10 + u64::from(byte - b'0');
    }
    (number, most)
}

// The number that these digits and those at the front of a text write, and what follows them; none from 2^64 on.
#[inline(never)]
fn more_digits(first: u64, text: &[u8]) -> Option<(u64, &[u8])>
    ensures some { IfSome result (λ read. (read.0 ≡ value_with first (digits_front text.now)) × (read.1.now ≡ after_digits text.now)) }
    ensures small { IfSome result (λ read. read.0 < 18446744073709551616) }
    ensures none { IfNone result (18446744073709551616 ≤ value_with first (digits_front text.now)) }
{
    let mut rest = text;
    let mut number = first;
    while let Some((digit, more)) = next_digit(rest) {
        number = with_digit(number, digit)?;
        rest = more;
    }
    Some((number, rest))
}

// The number that the digits at the front of a text write, and what follows them; none where there is no digit, a zero before a
// digit, or a number that is too large.
#[inline(always)]
fn digits_of(bytes: &[u8]) -> Option<(u64, &[u8])>
    ensures some { IfSome result (λ read. (natural_of (digits_front bytes.now) ≡ Some read.0) × (read.1.now ≡ after_digits bytes.now)) }
    ensures none { IfNone result (natural_of (digits_front bytes.now) ≡ None) }
{
    let (number, count) = few_digits(bytes);
    if count == 0 {
        return None;
    }
    if has_leading_zero(bytes, count) {
        return None;
    }
    let (_, rest) = bytes.split_at(count);
    if count < FEW {
        return Some((number, rest));
    }
    let (whole, after) = more_digits(number, rest)?;
    Some((whole, after))
}

// The number that is the word at the front of a text, without a sign, and what follows it.
#[inline(always)]
fn natural_of(text: &[u8]) -> Option<(u64, &[u8])>
    ensures some { IfSome result (λ read. (natural_of (word_front text.now) ≡ Some read.0) × (read.1.now ≡ after_word text.now)) }
    ensures none { IfNone result (natural_of (word_front text.now) ≡ None) }
{
    let (number, rest) = digits_of(text)?;
    if ends_word(rest) {
        Some((number, rest))
    } else {
        None
    }
}

// What follows a byte at the front of a text, where it stands there.
#[inline]
fn after_byte(text: &[u8], byte: u8) -> Option<&[u8]>
    ensures some { IfSome result (λ more. text.now ≡ byte ∷ more.now) }
    ensures none { IfNone result ((more : List ℕ) → text.now ≡ byte ∷ more → ⊥) }
{
    let (first, more) = text.split_first()?;
    if *first == byte { Some(more) } else { None }
}

// How long the word at the front of a text is.
fn word_length(text: &[u8]) -> usize
    ensures front { take result text.now ≡ word_front text.now }
    ensures rest { drop result text.now ≡ after_word text.now }
    ensures bound { result ≤ length text.now }
{
    for (place, byte) in text.iter().enumerate() {
        if is_blank(*byte) {
            return place;
        }
    }
    text.len()
}

impl<'a> Words<'a> {
    /// All bytes of a line.
    pub fn of(bytes: &'a [u8]) -> Words<'a>
        ensures { result ≡ words_of bytes.now }
    {
        Words { rest: bytes }
    }

    /// The number that is the next word, which is then passed. Where there is none, the words left are not told.
    #[inline(always)]
    pub fn number(&mut self) -> Option<Signed>
        ensures number { result ≡ first_number self.old }
        ensures passed { IfSome result (λ _. self.new ≡ drop 1 self.old) }
        ensures fewer { IfSome result (λ _. length self.new < length self.old) }
    {
        if let Some((number, rest)) = short_number(self.rest) {
            self.rest = rest;
            return Some(Signed {
                minus: false,
                number,
            });
        }
        self.any_number()
    }

    // The number that is the next word, of whatever length.
    #[inline(never)]
    fn any_number(&mut self) -> Option<Signed>
        ensures number { result ≡ first_number self.old }
        ensures passed { IfSome result (λ _. self.new ≡ drop 1 self.old) }
        ensures fewer { IfSome result (λ _. length self.new < length self.old) }
    {
        let word = after_blanks(self.rest);
        match after_byte(word, b'-') {
            None => {
                let (number, rest) = natural_of(word)?;
                let left = after_blanks(rest);
                self.rest = left;
                Some(Signed {
                    minus: false,
                    number,
                })
            }
            Some(digits) => {
                let (number, rest) = natural_of(digits)?;
                if number == 0 {
                    return None;
                }
                let others = after_blanks(rest);
                self.rest = others;
                Some(Signed {
                    minus: true,
                    number,
                })
            }
        }
    }

    /// Whether the next word is `d`, which is then passed.
    pub fn is_deletion(&mut self) -> bool
        ensures is { result ≡ begins_with (codes "d") self.old }
        ensures passed { self.new ≡ (if result then drop 1 self.old else self.old) }
    {
        if let Some(more) = after_byte(after_blanks(self.rest), b'd') {
            if ends_word(more) {
                self.rest = more;
                return true;
            }
        }
        false
    }

    /// The next word, which is then passed; none where no word is left.
    pub fn next(&mut self) -> Option<&'a [u8]>
        ensures some { IfSome result (λ word. self.old ≡ word.now ∷ self.new) }
        ensures none { IfNone result (self.old ≡ []) }
    {
        let text = after_blanks(self.rest);
        let count = word_length(text);
        if count == 0 {
            return None;
        }
        let (word, rest) = text.split_at(count);
        self.rest = rest;
        Some(word)
    }

    /// Whether no word is left.
    pub fn is_over(&self) -> bool
        ensures { result ≡ (length self.now == 0) }
    {
        after_blanks(self.rest).is_empty()
    }
}
