//! Whether values satisfy a formula.
ghost use Rattle.std.specs.Prelude.{◌≡◌, ◌<◌, IfNone, IfSome, length};
ghost use Rattle.clause_base.specs.Clause.{clause_value};
ghost use Rattle.clause_base.specs.Literal.{literal_value};
ghost use Rattle.clause_base.specs.Formula.{Satisfies, assignment_of};
ghost use Rattle.sat_text.specs.FirstFalse.{IsFirstFalse};

use clause_base::formula::Formula;
use clause_base::literal::Lit;
use clause_base::view::View;

// Whether values make a literal true; a variable without a value is false.
fn literal_value(values: &[bool], lit: Lit) -> bool
    ensures { result ≡ literal_value (assignment_of values.now) lit }
{
    let place = lit.variable() as usize;
    let value = place < values.len() && values[place];
    if lit.is_positive() { value } else { !value }
}

// Whether values make a literal of a clause true.
fn clause_value(values: &[bool], clause: &View) -> bool
    ensures { result ≡ clause_value (assignment_of values.now) clause.now }
{
    for place in 0..clause.len() {
        if literal_value(values, clause.get(place)) {
            return true;
        }
    }
    false
}

/// The number, counted from 0, of the first clause of a formula that values do not make true; none exactly where they satisfy it. A
/// variable past the last value is false.
pub fn first_false(formula: &Formula, values: &[bool]) -> Option<u32>
    ensures satisfies { IfNone result (Satisfies (assignment_of values.now) formula.now.clauses) }
    ensures first { IfSome result (λ number. IsFirstFalse (assignment_of values.now) formula.now.clauses number) }
    ensures within { IfSome result (λ number. number < length formula.now.clauses) }
{
    for number in 0..formula.count() {
        if !clause_value(values, &formula.clause(number)) {
            return Some(number);
        }
    }
    None
}
