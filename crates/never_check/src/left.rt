//! What is left of a clause, under the literals on a trail.

ghost use Rattle.std.specs.Prelude.{◌≡◌, ◌*◌};
ghost use Rattle.std.specs.List.{AllByRecursion};
ghost use Rattle.std.specs.Prelude.{None};
ghost use Rattle.gt_core.specs.Literal.{is_in};
ghost use Rattle.never_check.specs.{Left.TellsLeft, Left.left_from, Follow.AreBelow};

use crate::trail::Trail;
use gt_core::lits::opposite;

/// Which literals of a clause are not false.
pub enum Left {
    /// None: the clause is false.
    Nothing,
    /// One.
    One(u32),
    /// Two or more.
    More,
}

/// What is left of a clause, as it is looked through.
fn look_through(trail: &Trail, clause: &[u32]) -> Left
    requires { AreBelow (2 * trail.now.facts) clause.now }
    ensures { result ≡ left_from (is_in trail.now.literals) None clause.now }
{
    let mut one = None;
    for lit in clause {
        if !trail.has(opposite(*lit)) {
            match one {
                None => one = Some(*lit),
                Some(found) => {
                    if found != *lit {
                        return Left::More;
                    }
                }
            }
        }
    }
    match one {
        None => Left::Nothing,
        Some(found) => Left::One(found),
    }
}

/// What is left of a clause.
pub fn left_of(trail: &Trail, clause: &[u32]) -> Left
    requires { AreBelow (2 * trail.now.facts) clause.now }
    ensures { TellsLeft (is_in trail.now.literals) clause.now result }
{
    look_through(trail, clause)
}
