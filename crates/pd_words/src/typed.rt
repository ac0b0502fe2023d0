// Typed lists: one loop over the items, whatever becomes of them.
ghost use Rattle.std.specs.Prelude.{◌≡◌, [], List, Result, IfOk, IfErr};
ghost use Rattle.pd_sexp.specs.Tree as trees;
ghost use Rattle.pd_sexp.specs.View.{view, views};
ghost use Rattle.pd_words.specs.declared.named.Named.{Named};
ghost use Rattle.pd_words.specs.declared.fault.Fault.{Fault};
ghost use Rattle.pd_words.specs.First.{Gives, Leaves};
ghost use Rattle.pd_words.specs.Typed as typed;
ghost use Rattle.pd_words.specs.declared.fault.ReadError.TheVariants as errors;

use crate::fault::{Fault, ReadError};
use crate::named::{Named, copy_name};
use crate::table::Table;
use crate::words::{is, is_dash, is_name};
use pd_sexp::Tree;
use std::alloc::Global;

/// The type that words have with no type after them.
pub const OBJECT: u32 = 0;

fn begins_either(items: &[Tree]) -> bool
    ensures { result ≡ typed.begins_either (views items.now) }
{
    match items.first() {
        Some(Tree::Word { text, .. }) => is(text, "either"),
        _ => false,
    }
}

/// The word that names a type after a dash.
pub fn read_type_name(alloc: Global, tree: &Tree) -> Result<Named, ReadError>
    ensures { Gives (typed.type_name (view tree.now)) result }
{
    match tree {
        Tree::List { at, items } => {
            let fault = if begins_either(items.items.as_slice()) {
                Fault::Unsupported(*at)
            } else {
                Fault::Shape(*at)
            };
            Err(ReadError::Fault(fault))
        }
        Tree::Word { at, text } => {
            if !is_name(text) {
                return Err(ReadError::Fault(Fault::Shape(*at)));
            }
            let name = copy_name(alloc, text)?;
            Ok(Named { at: *at, name })
        }
    }
}

/// The number of the type that a tree after a dash names.
pub fn read_type(alloc: Global, types: &Table, tree: &Tree) -> Result<u32, ReadError>
    ensures { Gives (typed.type_of types.now (view tree.now)) result }
{
    let named = read_type_name(alloc, tree)?;
    match types.number(&named.name) {
        None => Err(ReadError::Fault(Fault::Unknown(named.at))),
        Some(kind) => Ok(kind),
    }
}

/// What a typed list is read into: variables, objects, types, or a count of arguments.
pub trait TypedList {
    /// What the names of types stand for.
    type Types;

    /// What words get that stand before a type.
    type Kind: Drop;

    /// What was read so far, as the definitions have it.
    ghost Listed: { Type 0 };

    ghost listed: { Self → Listed };

    /// With a word more, which waits for its type.
    ghost admits: { Listed → Named → Result Listed Fault };

    /// The type that a tree names.
    ghost kind_of: { Self.Types → trees.Tree → Result Self.Kind Fault };

    /// With this type for the words since the last one.
    ghost gives: { Listed → Self.Kind → List Named → Result Listed Fault };

    /// The type of words with no type after them.
    ghost untyped: { Self.Kind };

    /// Tests a word, and takes it.
    fn admit(&mut self, alloc: Global, word: &Named) -> Result<(), ReadError>
        ensures { Leaves (admits (listed self.old) word.now) (listed self.new) result };

    /// Reads the type that stands after a dash.
    fn read_kind(alloc: Global, types: &Self::Types, tree: &Tree) -> Result<Self::Kind, ReadError>
        ensures { Gives (kind_of types.now (view tree.now)) result };

    /// Gives a type to the words since the last one.
    fn give(&mut self, alloc: Global, kind: &Self::Kind, waiting: &[Named]) -> Result<(), ReadError>
        ensures { Leaves (gives (listed self.old) kind.now waiting.now) (listed self.new) result };

    /// The type of words with no type after them. It fails only for want of memory.
    fn no_type(alloc: Global) -> Result<Self::Kind, ReadError>
        ensures kind { IfOk result (λ kind. kind ≡ untyped) }
        ensures memory { IfErr result (λ e. e ≡ errors.Memory) };
}

/// Reads the items of a typed list, after what was read before.
pub fn read_typed<L: TypedList>(
    alloc: Global,
    types: &L::Types,
    list: &mut L,
    items: &[Tree],
) -> Result<(), ReadError>
    ensures { Leaves (typed.typed_from L.admits (L.kind_of types.now) L.gives L.untyped (L.listed list.old) [] (views items.now)) (L.listed list.new) result }
{
    let mut waiting = Vec::new(alloc);
    let mut rest = items;
    while let Some((item, after)) = rest.split_first() {
        match item {
            Tree::List { at, .. } => return Err(ReadError::Fault(Fault::Shape(*at))),
            Tree::Word { at, text } => {
                if is_dash(text) {
                    let Some((kind, later)) = after.split_first() else {
                        return Err(ReadError::Fault(Fault::Shape(*at)));
                    };
                    if waiting.as_slice().is_empty() {
                        return Err(ReadError::Fault(Fault::Shape(*at)));
                    }
                    let kind = L::read_kind(alloc, types, kind)?;
                    list.give(alloc, &kind, waiting.as_slice())?;
                    waiting.clear();
                    rest = later;
                } else {
                    let name = copy_name(alloc, text)?;
                    let word = Named { at: *at, name };
                    list.admit(alloc, &word)?;
                    waiting.push(word)?;
                    rest = after;
                }
            }
        }
    }
    let kind = L::no_type(alloc)?;
    list.give(alloc, &kind, waiting.as_slice())
}
