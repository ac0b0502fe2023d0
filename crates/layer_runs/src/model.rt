//! Whether an assignment satisfies a formula.

ghost use Rattle.std.specs.Prelude.{◌≡◌, true};
ghost use Rattle.clause_base.specs.Formula.{IsModel};

use clause_base::formula::Formula;
use sat_text::first_false::first_false;

/// Whether an assignment satisfies a formula.
pub(crate) fn is_model(formula: &Formula, values: &[bool]) -> bool
    ensures { result ≡ true → IsModel formula.now values.now }
{
    if formula.variables() as usize != values.len() {
        return false;
    }
    match first_false(formula, values) {
        None => true,
        Some(_) => false,
    }
}
