// Conditions.
ghost use Rattle.std.specs.Prelude.{◌≡◌, ◌++◌, ◌∷◌, [], option_map};
ghost use Rattle.pd_sexp.specs.View.{view, views};
ghost use Rattle.pd_words.specs.First.{Gives, Leaves};
ghost use Rattle.pd_task.specs.Atoms as atoms;
ghost use Rattle.pd_task.specs.own.Scope.{names_with};

use crate::headed::read_headed;
use crate::terms::{read_atom, read_term};
use crate::vocabulary::Vocabulary;
use pd_model::Cond;
use pd_sexp::Tree;
use pd_words::{Fault, Keyword, ReadError, Scope, head_keyword};
use std::alloc::Global;

/// The one item.
pub fn one(items: &[Tree]) -> Option<&Tree>
    ensures { option_map (λ t. view t.now) result ≡ atoms.one_of (views items.now) }
{
    let (first, rest) = items.split_first()?;
    match rest.split_first() {
        None => Some(first),
        Some(_) => None,
    }
}

fn two(items: &[Tree]) -> Option<(&Tree, &Tree)>
    ensures { option_map (λ t. (view t.0.now, view t.1.now)) result ≡ atoms.two_of (views items.now) }
{
    let (first, rest) = items.split_first()?;
    let (second, rest) = rest.split_first()?;
    match rest.split_first() {
        None => Some((first, second)),
        Some(_) => None,
    }
}

fn read_literal(
    alloc: Global,
    vocabulary: &Vocabulary,
    scope: &Scope,
    want: bool,
    at: u32,
    items: &[Tree],
) -> Result<Cond, ReadError>
    ensures { Gives (atoms.literal (names_with vocabulary.now scope.now.levels) want at (views items.now)) result }
{
    let atom = read_atom(alloc, vocabulary, scope, at, items)?;
    Ok(Cond::Has { atom, want })
}

fn read_equality(
    vocabulary: &Vocabulary,
    scope: &Scope,
    want: bool,
    at: u32,
    items: &[Tree],
) -> Result<Cond, ReadError>
    ensures { Gives (atoms.equality (names_with vocabulary.now scope.now.levels) want at (views items.now)) result }
{
    let Some((left, right)) = two(items) else {
        return Err(ReadError::Fault(Fault::Shape(at)));
    };
    let left = read_term(vocabulary, scope, left)?;
    let right = read_term(vocabulary, scope, right)?;
    Ok(Cond::Same { left, right, want })
}

fn read_denied(
    alloc: Global,
    vocabulary: &Vocabulary,
    scope: &Scope,
    at: u32,
    tree: &Tree,
) -> Result<Cond, ReadError>
    ensures { Gives (atoms.denied (names_with vocabulary.now scope.now.levels) at (view tree.now)) result }
{
    let Some(list) = read_headed(tree)? else {
        return Err(ReadError::Fault(Fault::Shape(at)));
    };
    match head_keyword(list.head) {
        Keyword::Free => read_literal(alloc, vocabulary, scope, false, list.at, list.items),
        Keyword::Equals => read_equality(vocabulary, scope, false, list.at, list.rest),
        _ => Err(ReadError::Fault(Fault::Unsupported(at))),
    }
}

fn read_negation(
    alloc: Global,
    vocabulary: &Vocabulary,
    scope: &Scope,
    at: u32,
    items: &[Tree],
) -> Result<Cond, ReadError>
    ensures { Gives (atoms.negation (names_with vocabulary.now scope.now.levels) at (views items.now)) result }
{
    let Some(item) = one(items) else {
        return Err(ReadError::Fault(Fault::Shape(at)));
    };
    read_denied(alloc, vocabulary, scope, at, item)
}

/// Adds the literals of a condition.
pub fn read_cond(
    alloc: Global,
    vocabulary: &Vocabulary,
    scope: &Scope,
    tree: &Tree,
    into: &mut Vec<Cond>,
) -> Result<(), ReadError>
    ensures { Leaves (atoms.condition (names_with vocabulary.now scope.now.levels) into.old.items (view tree.now)) into.new.items result }
{
    let Some(list) = read_headed(tree)? else {
        return Ok(());
    };
    let literal = match head_keyword(list.head) {
        Keyword::And => {
            for item in list.rest {
                read_cond(alloc, vocabulary, scope, item, into)?;
            }
            return Ok(());
        }
        Keyword::Not => read_negation(alloc, vocabulary, scope, list.at, list.rest)?,
        Keyword::Equals => read_equality(vocabulary, scope, true, list.at, list.rest)?,
        Keyword::Free | Keyword::Assignment => {
            read_literal(alloc, vocabulary, scope, true, list.at, list.items)?
        }
        _ => return Err(ReadError::Fault(Fault::Unsupported(list.at))),
    };
    into.push(literal)?;
    Ok(())
}
