// The initial state.
ghost use Rattle.std.specs.Prelude.{◌≡◌, ◌++◌, ◌∷◌, []};
ghost use Rattle.pd_sexp.specs.View.{view, views};
ghost use Rattle.pd_words.specs.First.{Gives, Leaves, each, every};
ghost use Rattle.pd_task.specs.Declarations as declarations;
ghost use Rattle.pd_task.specs.own.Scope.{names_with};

use crate::cond::one;
use crate::headed::read_headed;
use crate::terms::read_predicate;
use crate::vocabulary::Vocabulary;
use pd_model::{Atom, Atoms, Objects};
use pd_sexp::Tree;
use pd_words::{Fault, Keyword, ReadError, head_keyword, place_of};
use std::alloc::Global;

fn read_object(vocabulary: &Vocabulary, tree: &Tree) -> Result<u32, ReadError>
    ensures { Gives (declarations.object_at (names_with vocabulary.now []) (view tree.now)) result }
{
    match tree {
        Tree::List { at, .. } => Err(ReadError::Fault(Fault::Shape(*at))),
        Tree::Word { at, text } => match vocabulary.objects.number(text) {
            None => Err(ReadError::Fault(Fault::Unknown(*at))),
            Some(object) => Ok(object),
        },
    }
}

fn read_ground_objects(
    alloc: Global,
    vocabulary: &Vocabulary,
    trees: &[Tree],
) -> Result<Objects, ReadError>
    ensures { Gives (every (declarations.object_at (names_with vocabulary.now [])) (views trees.now)) result }
{
    let mut objects = Vec::new(alloc);
    for tree in trees {
        objects.push(read_object(vocabulary, tree)?)?;
    }
    Ok(Objects::of(objects))
}

// The atom without variables that the list at this place, with these items, is.
#[tactic(auto, using(crate::proofs::Loops::count_views))]
fn read_ground_atom(
    alloc: Global,
    vocabulary: &Vocabulary,
    at: u32,
    items: &[Tree],
) -> Result<Atom, ReadError>
    ensures { Gives (declarations.ground_atom (names_with vocabulary.now []) at (views items.now)) result }
{
    let Some((head, rest)) = items.split_first() else {
        return Err(ReadError::Fault(Fault::Shape(at)));
    };
    let predicate = read_predicate(vocabulary, head)?;
    if rest.len() != vocabulary.arities[predicate as usize] as usize {
        return Err(ReadError::Fault(Fault::Arity(at)));
    }
    let objects = read_ground_objects(alloc, vocabulary, rest)?;
    Ok(Atom { predicate, objects })
}

fn check_denied(
    alloc: Global,
    vocabulary: &Vocabulary,
    at: u32,
    tree: &Tree,
) -> Result<(), ReadError>
    ensures { Gives (declarations.init_denied (names_with vocabulary.now []) at (view tree.now)) result }
{
    let Some(list) = read_headed(tree)? else {
        return Err(ReadError::Fault(Fault::Shape(at)));
    };
    match head_keyword(list.head) {
        Keyword::Free => {
            read_ground_atom(alloc, vocabulary, list.at, list.items)?;
            Ok(())
        }
        Keyword::Equals => Err(ReadError::Fault(Fault::Unsupported(list.at))),
        _ => Err(ReadError::Fault(Fault::Unsupported(at))),
    }
}

// Adds the atom of an item.
fn read_item(
    alloc: Global,
    vocabulary: &Vocabulary,
    tree: &Tree,
    into: &mut Vec<Atom>,
) -> Result<(), ReadError>
    ensures { Leaves (declarations.and_init (names_with vocabulary.now []) into.old.items (view tree.now)) into.new.items result }
{
    let Some(list) = read_headed(tree)? else {
        return Err(ReadError::Fault(Fault::Shape(place_of(tree))));
    };
    match head_keyword(list.head) {
        Keyword::Equals => Err(ReadError::Fault(Fault::Unsupported(list.at))),
        Keyword::Not => match one(list.rest) {
            None => Err(ReadError::Fault(Fault::Shape(list.at))),
            Some(item) => check_denied(alloc, vocabulary, list.at, item),
        },
        _ => {
            let atom = read_ground_atom(alloc, vocabulary, list.at, list.items)?;
            into.push(atom)?;
            Ok(())
        }
    }
}

/// The atoms of the initial state, in the order of the file.
pub fn read_init(alloc: Global, vocabulary: &Vocabulary, items: &[Tree]) -> Result<Atoms, ReadError>
    ensures { Gives (each (declarations.and_init (names_with vocabulary.now [])) [] (views items.now)) result }
{
    let mut atoms = Vec::new(alloc);
    for item in items {
        read_item(alloc, vocabulary, item, &mut atoms)?;
    }
    Ok(Atoms::of(atoms))
}
