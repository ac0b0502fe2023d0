//! The literals of a clause, from the words of a line.

ghost use Rattle.std.specs.Prelude.{◌≡◌, ◌*◌, ◌<◌, ◌≤◌, [], Ok, Err, length, IfOk, MatchOption};
ghost use Rattle.std.specs.List.{AllByRecursion};
ghost use Rattle.sat_text.specs.LratLine.{code_of};
ghost use Rattle.never_text.specs.Certificate.{literals_of};

use crate::fault::Fault;
use containers::memory::Memory;
use sat_text::words::{Signed, Words};

/// How many literals a clause may have.
pub const MOST_LITERALS: usize = 4096;

/// The code of a literal.
pub fn code_of(told: Signed) -> u32
    requires some { 0 < told.number }
    requires few { told.number ≤ 1073741824 }
    ensures { result ≡ code_of told }
{
    let fact = told.number as u32 - 1;
    if told.minus { 2 * fact + 1 } else { 2 * fact }
}

/// Reads the literals of the clause that is the words of a line; what is wrong with them, if something is.
pub fn read_literals(
    words: &mut Words<'_>,
    facts: u32,
    lits: &mut Vec<u32>,
) -> Result<Option<Fault>, Memory>
    requires few { facts ≤ 1073741824 }
    requires empty { lits.old.items ≡ [] }
    ensures below { AllByRecursion (λ l. l < 2 * facts) lits.new.items }
    ensures told { IfOk result (λ o. MatchOption o (literals_of facts [] words.old ≡ Ok lits.new.items) (λ fault. literals_of facts [] words.old ≡ Err fault)) }
{
    'reading: while !words.is_over() {
        let Some(told) = words.number() else {
            return Ok(Some(Fault::Number));
        };
        if told.number == 0 {
            return Ok(if words.is_over() {
                None
            } else {
                Some(Fault::End)
            });
        }
        if u64::from(facts) < told.number {
            return Ok(Some(Fault::Fact));
        }
        if MOST_LITERALS <= lits.len() {
            return Ok(Some(Fault::Long));
        }
        lits.push(code_of(told))?;
    }
    Ok(Some(Fault::End))
}
