//! Literals in the row of a state.

ghost use Rattle.std.specs.Prelude.{◌≡◌, ◌*◌, ◌/◌, ◌<◌, length};
ghost use Rattle.std.specs.List.{AllByRecursion};
ghost use Rattle.bit_sets.specs.Rows.{row_has};
ghost use Rattle.gt_core.specs.Literal.{holds, all_hold};

use bit_sets::word::has_bit;
use state_store::pack::has;

/// Whether a literal holds in the state of a row.
#[inline(always)]
pub fn holds(row: &[u64], lit: u32) -> bool
    requires { lit / 2 < 64 * length row.now }
    ensures { result ≡ holds (row_has row.now) lit }
{
    let value = has(row, lit / 2);
    if lit % 2 == 0 { value } else { !value }
}

/// Whether all literals hold in the state of a row.
#[inline(always)]
pub fn all_hold(row: &[u64], lits: &[u32]) -> bool
    requires { AllByRecursion (λ l. l / 2 < 64 * length row.now) lits.now }
    ensures { result ≡ all_hold (row_has row.now) lits.now }
{
    for lit in lits {
        if !holds(row, *lit) {
            return false;
        }
    }
    true
}

/// The same of any literal, for one who proposes: a fact past the end of the row is false.
#[inline(always)]
pub fn tells(row: &[u64], lit: u32) -> bool {
    let value = match row.get((lit / 128) as usize) {
        Some(word) => has_bit(*word, lit / 2 % 64),
        None => false,
    };
    if lit % 2 == 0 { value } else { !value }
}
