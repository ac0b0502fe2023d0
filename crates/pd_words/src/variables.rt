// Variables with their types, and how many arguments a predicate has.
ghost use Rattle.std.specs.Prelude.{◌≡◌, ◌++◌, replicate, OnOk, IfOk};
ghost use Rattle.pd_sexp.specs.View.{view, views};
ghost use Rattle.pd_words.specs.First.{Gives, GivesAs};
ghost use Rattle.pd_words.specs.Typed as typed;

use crate::fault::{Fault, ReadError, wants};
use crate::named::Named;
use crate::number::next_number;
use crate::table::Table;
use crate::typed::{OBJECT, TypedList, read_type, read_typed};
use crate::words::is_variable;
use pd_sexp::Tree;
use std::alloc::{AllocError, Global};

/// Variables with the numbers of their types.
#[derive(Drop)]
pub struct Variables {
    pub names: Table,
    pub kinds: Vec<u32>,
}

impl Variables {
    ghost use Rattle.std.specs.Prelude.{[]};

    /// No variables; takes no memory.
    pub fn new(alloc: Global) -> Self
        ensures names { result.names ≡ [] }
        ensures kinds { result.kinds.items ≡ [] }
    {
        Variables {
            names: Table::new(alloc),
            kinds: Vec::new(alloc),
        }
    }
}

/// Gives this type to so many words more.
#[tactic(auto, using(crate::proofs::Lists::replicate_push))]
fn fill(kinds: &mut Vec<u32>, kind: u32, count: usize) -> Result<(), AllocError>
    ensures { OnOk result (kinds.new.items ≡ kinds.old.items ++ replicate count kind) }
{
    for _ in 0..count {
        kinds.push(kind)?;
    }
    Ok(())
}

impl TypedList for Variables {
    ghost use Rattle.pd_words.specs.Typed as typed;

    type Types = Table;

    type Kind = u32;

    ghost Listed = { typed.Variables };

    ghost listed = { λ v. typed.listed v.names v.kinds.items };

    ghost admits = { typed.admit_variable };

    ghost kind_of = { typed.type_of };

    ghost gives = { typed.give_kind };

    ghost untyped = { typed.object };

    // Takes a variable that stands for the first time.
    #[tactic(auto, using(crate::proofs::published::NameLemmas::number_none))]
    fn admit(&mut self, alloc: Global, word: &Named) -> Result<(), ReadError> {
        wants(is_variable(&word.name), Fault::Shape(word.at))?;
        if self.names.number(&word.name).is_some() {
            return Err(ReadError::Fault(Fault::Duplicate(word.at)));
        }
        self.names.add(alloc, &word.name)
    }

    fn read_kind(alloc: Global, types: &Table, tree: &Tree) -> Result<u32, ReadError> {
        read_type(alloc, types, tree)
    }

    fn give(&mut self, _: Global, kind: &u32, waiting: &[Named]) -> Result<(), ReadError> {
        fill(&mut self.kinds, *kind, waiting.len())?;
        Ok(())
    }

    fn no_type(_: Global) -> Result<u32, ReadError> {
        Ok(OBJECT)
    }
}

/// The variables of a typed list, each of which may stand once.
pub fn read_variables(alloc: Global, types: &Table, items: &[Tree]) -> Result<Variables, ReadError>
    ensures { GivesAs (λ v. typed.listed v.names v.kinds.items) (typed.variables types.now (views items.now)) result }
{
    let mut variables = Variables::new(alloc);
    read_typed(alloc, types, &mut variables, items)?;
    Ok(variables)
}

/// The variables of the typed list that the tree is.
pub fn read_variable_list(alloc: Global, types: &Table, tree: &Tree) -> Result<Variables, ReadError>
    ensures { GivesAs (λ v. typed.listed v.names v.kinds.items) (typed.variable_list types.now (view tree.now)) result }
{
    match tree {
        Tree::Word { at, .. } => Err(ReadError::Fault(Fault::Shape(*at))),
        Tree::List { items, .. } => read_variables(alloc, types, items.items.as_slice()),
    }
}

// How many arguments were read.
#[derive(Drop)]
struct Arguments {
    count: u32,
}

impl TypedList for Arguments {
    ghost use Rattle.std.specs.Prelude.{ℕ};
    ghost use Rattle.pd_words.specs.Typed as typed;

    type Types = Table;

    type Kind = u32;

    ghost Listed = { ℕ };

    ghost listed = { λ a. a.count };

    ghost admits = { typed.admit_argument };

    ghost kind_of = { typed.type_of };

    ghost gives = { typed.keep_count };

    ghost untyped = { typed.object };

    fn admit(&mut self, _: Global, word: &Named) -> Result<(), ReadError> {
        wants(is_variable(&word.name), Fault::Shape(word.at))?;
        self.count = next_number(self.count)?;
        Ok(())
    }

    fn read_kind(alloc: Global, types: &Table, tree: &Tree) -> Result<u32, ReadError> {
        read_type(alloc, types, tree)
    }

    fn give(&mut self, _: Global, _: &u32, _: &[Named]) -> Result<(), ReadError> {
        Ok(())
    }

    fn no_type(_: Global) -> Result<u32, ReadError> {
        Ok(OBJECT)
    }
}

/// How many arguments a predicate has, by the typed list after its name.
pub fn read_arity(alloc: Global, types: &Table, items: &[Tree]) -> Result<u32, ReadError>
    ensures { Gives (typed.arity types.now (views items.now)) result }
{
    let mut arguments = Arguments { count: 0 };
    read_typed(alloc, types, &mut arguments, items)?;
    Ok(arguments.count)
}
