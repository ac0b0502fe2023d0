//! What literals come to that are given, over what clauses tell by themselves.

ghost use Rattle.std.specs.Prelude.{◌≡◌, ℕ, ◌*◌, ◌≤◌, ◌++◌, List, [], length, take, IfOk, OnOk, MatchBool};
ghost use Rattle.std.specs.List.{AllByRecursion};
ghost use Rattle.gt_core.specs.Literal.{is_in};
ghost use Rattle.never_check.specs.{Follow.AreBelow, Follow.HasAll, Follow.IsGrown, Follow.IsContradiction, Rules.AreRules, Rules.ObeysRules};
ghost use Rattle.never_check.specs.{Rules.AreFollowed, Rules.ObeysWith, Verdicts.IsLeast, Verdicts.AreRefuted, Verdicts.HasLeast};

use crate::begin::assume;
use crate::propagate::propagate;
use crate::rules::Rules;
use crate::trail::Trail;
use containers::memory::Memory;

/// Adds literals and all that follows, where the trail was followed whole; true where that is a contradiction.
pub fn refutes(rules: &Rules, lits: &[u32], trail: &mut Trail) -> Result<bool, Memory>
    requires rules { AreRules rules.now }
    requires facts { trail.old.facts ≡ rules.now.known.now.facts }
    requires lits { AreBelow (2 * trail.old.facts) lits.now }
    requires followed { AreFollowed rules.now trail.old.literals trail.old.literals }
    ensures facts { OnOk result (trail.new.facts ≡ trail.old.facts) }
    ensures front { OnOk result (take (length trail.old.literals) trail.new.literals ≡ trail.old.literals) }
    ensures told { IfOk result (λ b. MatchBool b
        (IsContradiction (ObeysWith rules.now lits.now) trail.old.literals)
        (IsGrown (ObeysWith rules.now lits.now) trail.old.literals trail.new.literals
        × AreFollowed rules.now trail.new.literals trail.new.literals
        × HasAll (is_in trail.new.literals) lits.now)) }
{
    let from = trail.len();
    if assume(trail, lits)? {
        return Ok(true);
    }
    let refuted = propagate(rules, trail, from)?;
    Ok(refuted)
}

/// Whether literals are refuted, over a trail that has what some given ones come to. The trail is as it was.
pub fn are_refuted(rules: &Rules, lits: &[u32], trail: &mut Trail) -> Result<bool, Memory>
    requires rules { AreRules rules.now }
    requires facts { trail.old.facts ≡ rules.now.known.now.facts }
    requires lits { AreBelow (2 * trail.old.facts) lits.now }
    requires followed { AreFollowed rules.now trail.old.literals trail.old.literals }
    ensures kept { OnOk result (trail.new ≡ trail.old) }
    ensures told { IfOk result (λ b. (given : List ℕ) → IsLeast rules.now given trail.old
        → MatchBool b (AreRefuted rules.now (given ++ lits.now)) (HasLeast rules.now (given ++ lits.now))) }
{
    let from = trail.len();
    let refuted = refutes(rules, lits, trail)?;
    trail.go_back(from);
    Ok(refuted)
}
