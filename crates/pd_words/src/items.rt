// The items of lists.
ghost use Rattle.std.specs.Prelude.{◌≡◌};
ghost use Rattle.pd_sexp.specs.View.{view, views};
ghost use Rattle.pd_words.specs.First.{Gives, GivesAs};
ghost use Rattle.pd_words.specs.Items as defs;

use crate::fault::{Fault, ReadError};
use crate::words::is_name;
use pd_sexp::{Name, Tree};

/// The place of a tree.
pub fn place_of(tree: &Tree) -> u32
    ensures { result ≡ defs.place_of (view tree.now) }
{
    match tree {
        Tree::Word { at, .. } => *at,
        Tree::List { at, .. } => *at,
    }
}

/// Tests that no item is left.
pub fn no_more(items: &[Tree]) -> Result<(), ReadError>
    ensures { Gives (defs.no_more (views items.now)) result }
{
    match items.split_first() {
        None => Ok(()),
        Some((item, _)) => Err(ReadError::Fault(Fault::Shape(place_of(item)))),
    }
}

/// Tests that a tree is a name, and lends it.
pub fn name_at(tree: &Tree) -> Result<&Name, ReadError>
    ensures { GivesAs (λ n. n.now) (defs.name_at (view tree.now)) result }
{
    match tree {
        Tree::List { at, .. } => Err(ReadError::Fault(Fault::Shape(*at))),
        Tree::Word { at, text } => {
            if !is_name(text) {
                return Err(ReadError::Fault(Fault::Shape(*at)));
            }
            Ok(text)
        }
    }
}
