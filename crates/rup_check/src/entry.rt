ghost use Rattle.std.specs.Prelude.{◌≡◌, [], fold, length, IfOk, OnOk};
ghost use Rattle.clause_base.specs.Clause.{HasVariablesBelow, has_variables_below};
ghost use Rattle.containers.specs.Rising.{put};
ghost use Rattle.clause_base.specs.Derivation.{leads_to_conflict};
ghost use Rattle.clause_base.specs.declared.log.Entry.TheVariants.{Learn as learn_entry};
ghost use Rattle.rup_check.specs.own.Kept.{kept_named, is_derived_by};
ghost use Rattle.rup_check.specs.Taken.{NamesBelow};

use crate::effect::{Effect, effect_of};
use crate::falsified::Falsified;
use crate::kept::Kept;
use crate::left::Left;
use clause_base::formula::Formula;
use clause_base::literal::Lit;
use containers::memory::Memory;

/// Whether the hints lead from what is taken as false to a conflict, where they name kept clauses. Each forced literal's
/// negation is then taken as false too.
fn leads_to_conflict(
    marks: &mut Falsified,
    formula: &Formula,
    kept: &Kept,
    hints: &[u32],
) -> Result<bool, Memory>
    requires named { NamesBelow marks.old.variables formula.now.clauses kept.now.dropped.items kept.now.learned }
    requires long { length kept.now.dropped.items ≡ length formula.now.clauses }
    ensures answer { IfOk result (λ b. b ≡ leads_to_conflict (kept_named formula.now.clauses kept.now.dropped.items kept.now.learned) marks.old.falsified hints.now) }
    ensures variables { marks.new.variables ≡ marks.old.variables }
{
    let mut left = Left::of(hints);
    while let Some(hint) = left.next() {
        let Some(clause) = kept.clause(formula, hint) else {
            return Ok(false);
        };
        match effect_of(marks, &clause) {
            Effect::Loose => return Ok(false),
            Effect::Conflicts => return Ok(left.len() == 0),
            Effect::Forces(lit) => marks.falsify(lit.opposite())?,
        }
    }
    Ok(false)
}

/// Takes the literals of a clause as false.
fn falsify_all(marks: &mut Falsified, clause: &[Lit]) -> Result<(), Memory>
    requires { HasVariablesBelow marks.old.variables clause.now }
    ensures falsified { OnOk result (marks.new.falsified ≡ fold put marks.old.falsified clause.now) }
    ensures variables { marks.new.variables ≡ marks.old.variables }
{
    let mut left = Left::of(clause);
    while let Some(lit) = left.next() {
        marks.falsify(lit)?;
    }
    Ok(())
}

/// Whether a clause follows by its hints. Its literals, and what the hints force, may be taken as false after it.
fn leads_from(
    formula: &Formula,
    kept: &Kept,
    clause: &[Lit],
    hints: &[u32],
    marks: &mut Falsified,
) -> Result<bool, Memory>
    requires empty { marks.old.falsified ≡ [] }
    requires named { NamesBelow marks.old.variables formula.now.clauses kept.now.dropped.items kept.now.learned }
    requires long { length kept.now.dropped.items ≡ length formula.now.clauses }
    requires below { HasVariablesBelow marks.old.variables clause.now }
    ensures answer { IfOk result (λ b. b ≡ leads_to_conflict (kept_named formula.now.clauses kept.now.dropped.items kept.now.learned) clause.now hints.now) }
    ensures variables { marks.new.variables ≡ marks.old.variables }
{
    falsify_all(marks, clause)?;
    let conflict = leads_to_conflict(marks, formula, kept, hints)?;
    Ok(conflict)
}

/// Whether the variables of some literals are all below a number.
fn fits(clause: &[Lit], variables: u32) -> bool
    ensures { result ≡ has_variables_below variables clause.now }
{
    let mut left = Left::of(clause);
    while let Some(lit) = left.next() {
        if variables <= lit.variable() {
            return false;
        }
    }
    true
}

/// Whether the entry that learns a clause by these hints follows from the formula and what is known. The marks are left as
/// they were, with no literal taken as false.
pub fn is_learnable(
    marks: &mut Falsified,
    formula: &Formula,
    kept: &Kept,
    clause: &[Lit],
    hints: &[u32],
) -> Result<bool, Memory>
    requires empty { marks.old.falsified ≡ [] }
    requires over { marks.old.variables ≡ formula.now.variables }
    requires named { NamesBelow formula.now.variables formula.now.clauses kept.now.dropped.items kept.now.learned }
    requires long { length kept.now.dropped.items ≡ length formula.now.clauses }
    ensures answer { IfOk result (λ b. b ≡ is_derived_by formula.now.variables formula.now.clauses kept.now.dropped.items kept.now.learned (learn_entry clause.now hints.now)) }
    ensures kept { marks.new ≡ marks.old }
{
    if !fits(clause, formula.variables()) {
        return Ok(false);
    }
    let answer = leads_from(formula, kept, clause, hints, marks);
    marks.clear();
    answer
}
