// Predicates.
ghost use Rattle.std.specs.Prelude.{◌≡◌, ◌++◌, ◌∷◌, [], None, OnOk, IfErr};
ghost use Rattle.pd_words.specs.Names.{number_of};
ghost use Rattle.pd_sexp.specs.View.{view, views};
ghost use Rattle.pd_model.specs.Names.{predicate_names, arities_of};
ghost use Rattle.pd_words.specs.First.{GivesAs, Leaves, each};
ghost use Rattle.pd_task.specs.Declarations as declarations;
ghost use Rattle.pd_words.specs.declared.fault.ReadError.TheVariants as errors;

use pd_model::Predicate;
use pd_sexp::{Name, Tree};
use pd_words::{
    Fault, Keyword, ReadError, Table, copy_name, keyword_of, name_at, place_of, read_arity,
};
use std::alloc::Global;

fn is_free(keyword: Keyword) -> bool
    ensures { result ≡ declarations.is_free keyword }
{
    match keyword {
        Keyword::Free => true,
        _ => false,
    }
}

/// Predicates by number, with their names and arities apart.
#[derive(Drop)]
pub struct PredicateTable {
    pub names: Table,
    pub arities: Vec<u32>,
    pub decls: Vec<Predicate>,
    ghost named: { names ≡ predicate_names decls.items },
    ghost each_arity: { arities.items ≡ arities_of decls.items },
}

impl PredicateTable {
    fn new(alloc: Global) -> Self
        ensures { result.decls.items ≡ [] }
    {
        PredicateTable {
            names: Table::new(alloc),
            arities: Vec::new(alloc),
            decls: Vec::new(alloc),
        }
    }

    // Adds a predicate. It fails only for want of memory.
    #[tactic(auto, using(crate::proofs::ObjectLemmas::map_push))]
    fn add(&mut self, alloc: Global, name: &Name, arity: u32) -> Result<(), ReadError>
        requires { number_of name.now self.old.names ≡ None }
        ensures added { OnOk result (self.new.decls.items ≡ self.old.decls.items ++ record { name = name.now; arity = arity } ∷ []) }
        ensures memory { IfErr result (λ e. e ≡ errors.Memory) }
    {
        let kept = copy_name(alloc, name)?;
        self.arities.reserve(1)?;
        self.decls.reserve(1)?;
        self.names.add(alloc, name)?;
        self.arities.push(arity)?;
        self.decls.push(Predicate { name: kept, arity })?;
        Ok(())
    }

    // Adds the predicate that an item of the section declares.
    fn read(&mut self, alloc: Global, types: &Table, tree: &Tree) -> Result<(), ReadError>
        ensures { Leaves (declarations.and_predicate types.now self.old.decls.items (view tree.now)) self.new.decls.items result }
    {
        match tree {
            Tree::Word { at, .. } => Err(ReadError::Fault(Fault::Shape(*at))),
            Tree::List { at, items } => {
                let Some((head, rest)) = items.items.as_slice().split_first() else {
                    return Err(ReadError::Fault(Fault::Shape(*at)));
                };
                let name = name_at(head)?;
                if !is_free(keyword_of(name)) {
                    return Err(ReadError::Fault(Fault::Shape(place_of(head))));
                }
                if self.names.number(name).is_some() {
                    return Err(ReadError::Fault(Fault::Duplicate(place_of(head))));
                }
                let arity = read_arity(alloc, types, rest)?;
                self.add(alloc, name, arity)
            }
        }
    }
}

/// Reads the items of the section of predicates.
pub fn read_predicates(
    alloc: Global,
    types: &Table,
    items: &[Tree],
) -> Result<PredicateTable, ReadError>
    ensures { GivesAs (λ t. t.decls.items) (each (declarations.and_predicate types.now) [] (views items.now)) result }
{
    let mut predicates = PredicateTable::new(alloc);
    for item in items {
        predicates.read(alloc, types, item)?;
    }
    Ok(predicates)
}
