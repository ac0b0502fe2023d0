//! A weight, from the words of a line.

ghost use Rattle.std.specs.Prelude.{◌≡◌, ◌≤◌, Ok, Err, MatchResult};
ghost use Rattle.never_text.specs.Certificate.{next_number, weight_of, weight_with};

use crate::fault::Fault;
use crate::literals::code_of;
use sat_text::words::{Signed, Words};

/// The literal and the number that a fact with a weight is.
fn weight_with(facts: u32, fact: Signed, weight: Signed) -> Result<(u32, u64), Fault>
    requires { facts ≤ 1073741824 }
    ensures { result ≡ weight_with facts fact weight }
{
    if fact.minus || fact.number == 0 || u64::from(facts) < fact.number {
        return Err(Fault::Fact);
    }
    let literal = Signed {
        minus: weight.minus,
        number: fact.number,
    };
    Ok((code_of(literal), weight.number))
}

/// The number that the next word is, which is then passed.
fn next_number(words: &mut Words<'_>) -> Result<Signed, Fault>
    ensures { MatchResult result (λ told. next_number words.old ≡ Ok (told, words.new)) (λ fault. next_number words.old ≡ Err fault) }
{
    if words.is_over() {
        return Err(Fault::End);
    }
    words.number().ok_or(Fault::Number)
}

/// The literal and the number that the words of a line tell.
pub fn weight_of(words: &mut Words<'_>, facts: u32) -> Result<(u32, u64), Fault>
    requires { facts ≤ 1073741824 }
    ensures { result ≡ weight_of facts words.old }
{
    let fact = next_number(words)?;
    let weight = next_number(words)?;
    if !words.is_over() {
        return Err(Fault::End);
    }
    weight_with(facts, fact, weight)
}
