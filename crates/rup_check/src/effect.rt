ghost use Rattle.std.specs.Prelude.{◌≡◌};
ghost use Rattle.clause_base.specs.Clause.{HasVariablesBelow};
ghost use Rattle.clause_base.specs.Derivation.{open_literals, effect_of_open};
ghost use Rattle.rup_check.specs.own.Effects.{meaning, ForcesBelow};

use crate::falsified::Falsified;
use clause_base::literal::Lit;
use clause_base::view::View;

/// What a clause says where some literals are taken as false.
#[derive(Clone, Copy)]
pub enum Effect {
    /// All its literals are false.
    Conflicts,
    /// All its literals but this one are false, and this one has no value.
    Forces(Lit),
    /// Neither.
    Loose,
}

/// The effect of a clause. It looks at each literal of the clause at most once.
pub fn effect_of(marks: &Falsified, clause: &View) -> Effect
    requires { HasVariablesBelow marks.now.variables clause.now }
    ensures effect { meaning result ≡ effect_of_open marks.now.falsified (open_literals marks.now.falsified clause.now) }
    ensures below { ForcesBelow marks.now.variables result }
{
    let mut open: Option<Lit> = None;
    for place in 0..clause.len() {
        let lit = clause.get(place);
        if !marks.is_false(lit) {
            if open.is_some() {
                return Effect::Loose;
            }
            open = Some(lit);
        }
    }
    match open {
        None => Effect::Conflicts,
        Some(lit) => {
            if marks.is_false(lit.opposite()) {
                Effect::Loose
            } else {
                Effect::Forces(lit)
            }
        }
    }
}
