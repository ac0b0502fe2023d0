//! Several numbers in a line.
ghost use Rattle.std.specs.Prelude.{◌≡◌, ◌≤◌, ◌∷◌, ◌++◌, ℕ, List, IfOk, IfSome, None};
ghost use Rattle.proof_log.specs.Text.{AreSmall};
ghost use Rattle.proof_log.specs.own.Reading.{numbered, one_then, EndsNumbers, HasNoOne, HasNoNumbers, HasNoNumbersTo, ReadsNumbers};

use crate::decimal::{after_blank, read_number};
use containers::memory::Memory;

/// What follows LF.
pub fn after_feed(bytes: &[u8]) -> Option<&[u8]>
    ensures some { IfSome result (λ rest. bytes.now ≡ 10 ∷ rest.now) }
    ensures none { result ≡ None → (rest : List ℕ) → bytes.now ≡ 10 ∷ rest → ⊥ }
{
    match bytes.split_first() {
        Some((first, rest)) if *first == 10 => Some(rest),
        _ => None,
    }
}

/// A blank, a number and LF, and what follows them.
pub fn read_one(bytes: &[u8]) -> Option<(u32, &[u8])>
    ensures some { IfSome result (λ r. bytes.now ≡ one_then r.0 r.1.now) }
    ensures none { result ≡ None → HasNoOne bytes.now }
{
    let digits = after_blank(bytes)?;
    let (number, rest) = read_number(digits)?;
    Some((number, after_feed(rest)?))
}

// Numbers, each after a blank, into a vector that is written over, and what follows them; none where something else follows a
// blank and a digit.
fn read_numbers<'a>(bytes: &'a [u8], numbers: &mut Vec<u32>) -> Result<Option<&'a [u8]>, Memory>
    ensures some { IfOk result (λ o. IfSome o (λ rest. ReadsNumbers bytes.now numbers.new.items rest.now)) }
    ensures none { IfOk result (λ o. o ≡ None → HasNoNumbers bytes.now) }
{
    numbers.clear();
    let mut rest = bytes;
    while let Some(digits) = after_blank(rest) {
        let Some((number, others)) = read_number(digits) else {
            return Ok(None);
        };
        numbers.push(number)?;
        rest = others;
    }
    Ok(Some(rest))
}

/// Numbers, each after a blank, into a vector that is written over, up to these bytes, and what follows them.
pub fn read_numbers_to<'a>(
    bytes: &'a [u8],
    end: &[u8],
    numbers: &mut Vec<u32>,
) -> Result<Option<&'a [u8]>, Memory>
    requires { (rest : List ℕ) → EndsNumbers (end.now ++ rest) }
    ensures text { IfOk result (λ o. IfSome o (λ rest. bytes.now ≡ numbered numbers.new.items (end.now ++ rest.now))) }
    ensures small { IfOk result (λ o. IfSome o (λ rest. AreSmall numbers.new.items)) }
    ensures none { IfOk result (λ o. o ≡ None → HasNoNumbersTo end.now bytes.now) }
{
    match read_numbers(bytes, numbers)? {
        Some(rest) => Ok(rest.strip_prefix(end)),
        None => Ok(None),
    }
}
