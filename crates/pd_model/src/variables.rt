// Which variables an effect names.
ghost use Rattle.std.specs.Prelude.{◌≡◌};
ghost use Rattle.std.specs.List.{list_any};
ghost use Rattle.pd_model.specs.own.Variables.{is_variable, atom_names, cond_names, effect_names};

use crate::{Cond, Effect, Pattern, Term};

fn is_variable(place: usize, term: Term) -> bool
    ensures { result ≡ is_variable place term }
{
    match term {
        Term::Object(_) => false,
        Term::Variable(v) => v as usize == place,
    }
}

fn atom_names(place: usize, atom: &Pattern) -> bool
    ensures { result ≡ atom_names place atom.now }
{
    atom.terms
        .as_slice()
        .iter()
        .any(|term| is_variable(place, *term))
}

fn cond_names(place: usize, cond: &Cond) -> bool
    ensures { result ≡ cond_names place cond.now }
{
    match cond {
        Cond::Has { atom, .. } => atom_names(place, atom),
        Cond::Same { left, right, .. } => is_variable(place, *left) || is_variable(place, *right),
    }
}

fn any_names(place: usize, conds: &[Cond]) -> bool
    ensures { result ≡ list_any (cond_names place) conds.now }
{
    conds.iter().any(|cond| cond_names(place, cond))
}

/// Whether the effect names the variable at a place, in its atom or in its condition. Where it does not, its instances are the
/// same for each object that the variable may stand for.
pub fn effect_names(place: usize, effect: &Effect) -> bool
    ensures { result ≡ effect_names place effect.now }
{
    atom_names(place, &effect.atom) || any_names(place, effect.cond.as_slice())
}
