// Terms and atoms.
ghost use Rattle.std.specs.Prelude.{◌≡◌, ◌<◌, IfOk, length};
ghost use Rattle.pd_sexp.specs.View.{view, views};
ghost use Rattle.pd_words.specs.First.{Gives, every};
ghost use Rattle.pd_task.specs.Atoms.{term, atom, predicate};
ghost use Rattle.pd_task.specs.own.Scope.{names_with};

use crate::vocabulary::Vocabulary;
use pd_model::{Pattern, Term, Terms};
use pd_sexp::Tree;
use pd_words::{Fault, ReadError, Scope, is_name, is_variable};
use std::alloc::Global;

/// A variable in scope, or a declared object.
pub fn read_term(vocabulary: &Vocabulary, scope: &Scope, tree: &Tree) -> Result<Term, ReadError>
    ensures { Gives (term (names_with vocabulary.now scope.now.levels) (view tree.now)) result }
{
    match tree {
        Tree::List { at, .. } => Err(ReadError::Fault(Fault::Shape(*at))),
        Tree::Word { at, text } => {
            if is_variable(text) {
                match scope.number(text)? {
                    None => Err(ReadError::Fault(Fault::Unknown(*at))),
                    Some(i) => Ok(Term::Variable(i)),
                }
            } else {
                match vocabulary.objects.number(text) {
                    None => Err(ReadError::Fault(Fault::Unknown(*at))),
                    Some(i) => Ok(Term::Object(i)),
                }
            }
        }
    }
}

fn read_terms(
    alloc: Global,
    vocabulary: &Vocabulary,
    scope: &Scope,
    trees: &[Tree],
) -> Result<Terms, ReadError>
    ensures { Gives (every (term (names_with vocabulary.now scope.now.levels)) (views trees.now)) result }
{
    let mut terms = Vec::new(alloc);
    for tree in trees {
        terms.push(read_term(vocabulary, scope, tree)?)?;
    }
    Ok(Terms::of(terms))
}

/// The number of the predicate that a list begins with.
pub fn read_predicate(vocabulary: &Vocabulary, tree: &Tree) -> Result<u32, ReadError>
    ensures number { Gives (predicate vocabulary.now.predicates.now (view tree.now)) result }
    ensures below { IfOk result (λ p. p < length vocabulary.now.predicates.now) }
{
    match tree {
        Tree::List { at, .. } => Err(ReadError::Fault(Fault::Shape(*at))),
        Tree::Word { at, text } => {
            if !is_name(text) {
                return Err(ReadError::Fault(Fault::Shape(*at)));
            }
            match vocabulary.predicates.number(text) {
                None => Err(ReadError::Fault(Fault::Unknown(*at))),
                Some(p) => Ok(p),
            }
        }
    }
}

/// The atom that the list at this place, with these items, is.
#[tactic(auto, using(crate::proofs::Loops::count_views))]
pub fn read_atom(
    alloc: Global,
    vocabulary: &Vocabulary,
    scope: &Scope,
    at: u32,
    items: &[Tree],
) -> Result<Pattern, ReadError>
    ensures { Gives (atom (names_with vocabulary.now scope.now.levels) at (views items.now)) result }
{
    let Some((head, rest)) = items.split_first() else {
        return Err(ReadError::Fault(Fault::Shape(at)));
    };
    let predicate = read_predicate(vocabulary, head)?;
    if rest.len() != vocabulary.arities[predicate as usize] as usize {
        return Err(ReadError::Fault(Fault::Arity(at)));
    }
    let terms = read_terms(alloc, vocabulary, scope, rest)?;
    Ok(Pattern { predicate, terms })
}
