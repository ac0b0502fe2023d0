ghost use Rattle.std.specs.Prelude.{◌≡◌, ◌==◌, true, take, max, if◌then◌else◌};
ghost use Rattle.clause_base.specs.Literal.{opposite};
ghost use Rattle.cdcl_defs.specs.State.{is_on, decision_count};
ghost use Rattle.cdcl_defs.specs.Trail.{AllFalse};
ghost use Rattle.cdcl_defs.specs.Learn.{level_of, backjump_level};

use cdcl_tables::trail::Trail;
use clause_base::literal::Lit;

/// Of so many first entries, and those up to the one that made a false literal false, the more, where the literal is not of the
/// current level: positions are compared, and the level is looked for once, at the end.
#[inline]
fn further(trail: &Trail, length: u32, lit: Lit) -> u32
    requires { is_on trail.now.entries (opposite lit) ≡ true }
    ensures { decision_count (take result trail.now.entries) ≡ (if level_of trail.now.entries lit == decision_count trail.now.entries then decision_count (take length trail.now.entries) else max (decision_count (take length trail.now.entries)) (level_of trail.now.entries lit)) }
{
    if trail.is_current(lit) {
        return length;
    }
    length.max(trail.length_with(lit))
}

/// The level to backtrack to with a clause whose literals are all false: the greatest of theirs that is not the current one, or 0.
pub fn backjump_level(trail: &Trail, lits: &[Lit]) -> u32
    requires { AllFalse trail.now.entries lits.now }
    ensures { result ≡ backjump_level trail.now.entries lits.now }
{
    let mut length = 0;
    for lit in lits {
        length = further(trail, length, *lit);
    }
    trail.level_within(length)
}
