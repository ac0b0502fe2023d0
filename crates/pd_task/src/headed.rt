// Lists by their first item.
ghost use Rattle.std.specs.Prelude.{IfOk, IfErr, MatchOption};
ghost use Rattle.pd_sexp.specs.View.{view};
ghost use Rattle.pd_task.specs.own.Headed.{IsWord, IsEmpty, IsHeaded};

use pd_sexp::Tree;
use pd_words::{Fault, ReadError};

/// A list that is not empty: its place, its first item, all its items, and those after the first.
#[derive(Drop)]
pub struct Headed<'a> {
    pub at: u32,
    pub head: &'a Tree,
    pub items: &'a [Tree],
    pub rest: &'a [Tree],
}

/// The list that a tree is; `None` where it has no item. A word is no list.
pub fn read_headed(tree: &Tree) -> Result<Option<Headed<'_>>, ReadError>
    ensures list { IfOk result (λ o. MatchOption o (IsEmpty (view tree.now)) (λ l. IsHeaded (view tree.now) l)) }
    ensures word { IfErr result (λ e. IsWord e (view tree.now)) }
{
    match tree {
        Tree::Word { at, .. } => Err(ReadError::Fault(Fault::Shape(*at))),
        Tree::List { at, items } => {
            let items = items.items.as_slice();
            match items.split_first() {
                None => Ok(None),
                Some((head, rest)) => Ok(Some(Headed {
                    at: *at,
                    head,
                    items,
                    rest,
                })),
            }
        }
    }
}
