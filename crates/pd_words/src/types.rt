// The types of a domain.
ghost use Rattle.std.specs.Prelude.{◌≡◌, ◌<◌, ◌≤◌, ◌++◌, ◌∷◌, [], ℕ, zero, suc, List, length, map, IfOk, OnOk, IfErr};
ghost use Rattle.pd_sexp.specs.View.{views};
ghost use Rattle.pd_model.specs.Types.{parents_of};
ghost use Rattle.pd_words.specs.First.{Gives, GivesAs};
ghost use Rattle.pd_words.specs.Types as types;
ghost use Rattle.pd_words.specs.Types.{AreParents};
ghost use Rattle.pd_words.specs.own.TypeList.{declared};
ghost use Rattle.pd_words.specs.declared.fault.ReadError.TheVariants as errors;

use crate::ancestors::{ancestors, is_rooted};
use crate::fault::{Fault, ReadError, wants};
use crate::named::{Named, copy_name};
use crate::table::Table;
use crate::typed::{OBJECT, TypedList, read_type_name, read_typed};
use crate::words::{is, is_name};
use pd_model::{TypeDecl, Types};
use pd_sexp::{Name, Tree};
use std::alloc::Global;

fn is_object(name: &Name) -> bool
    ensures { result ≡ types.is_object name.now }
{
    is(name, "object")
}

fn object_name(alloc: Global) -> Result<Name, ReadError>
    ensures name { IfOk result (λ n. n ≡ types.object_name) }
    ensures memory { IfErr result (λ e. e ≡ errors.Memory) }
{
    Ok(Name::of(Vec::from_slice(alloc, "object".as_bytes())?))
}

// The types of a list so far.
#[derive(Drop)]
struct Declared {
    // Their names, `object` first.
    names: Table,
    // Where each but `object` stands.
    places: Vec<u32>,
    // The names of their parents.
    parents: Vec<Name>,
}

impl Declared {
    ghost use Rattle.std.specs.Prelude.{◌≡◌, IfOk, IfErr};
    ghost use Rattle.pd_words.specs.Types as types;
    ghost use Rattle.pd_words.specs.own.TypeList.{declared};
    ghost use Rattle.pd_words.specs.First.{Leaves};
    ghost use Rattle.pd_words.specs.declared.fault.ReadError.TheVariants as errors;

    fn new(alloc: Global) -> Result<Self, ReadError>
        ensures declared { IfOk result (λ d. declared d ≡ types.only_object) }
        ensures memory { IfErr result (λ e. e ≡ errors.Memory) }
    {
        let mut names = Table::new(alloc);
        let object = object_name(alloc)?;
        names.add(alloc, &object)?;
        Ok(Declared {
            names,
            places: Vec::new(alloc),
            parents: Vec::new(alloc),
        })
    }

    fn give_one(&mut self, alloc: Global, parent: &Name, word: &Named) -> Result<(), ReadError>
        ensures { Leaves (types.give_one (declared self.old) parent.now word.now) (declared self.new) result }
    {
        if !is_object(&word.name) {
            self.parents.push(copy_name(alloc, parent)?)?;
            return Ok(());
        }
        if !is_object(parent) {
            return Err(ReadError::Fault(Fault::Duplicate(word.at)));
        }
        Ok(())
    }
}

impl TypedList for Declared {
    ghost use Rattle.pd_words.specs.Types as types;
    ghost use Rattle.pd_words.specs.own.TypeList.{declared};

    // Types that are declared nowhere may stand after a dash.
    type Types = ();

    type Kind = Name;

    ghost Listed = { types.Declared };

    ghost listed = { declared };

    ghost admits = { types.admit_type };

    ghost kind_of = { λ _ tree. types.parent_name tree };

    ghost gives = { types.give_parent };

    ghost untyped = { types.object_name };

    #[tactic(auto, using(crate::proofs::published::NameLemmas::number_none))]
    fn admit(&mut self, alloc: Global, word: &Named) -> Result<(), ReadError> {
        wants(is_name(&word.name), Fault::Shape(word.at))?;
        if is_object(&word.name) {
            return Ok(());
        }
        if self.names.number(&word.name).is_some() {
            return Err(ReadError::Fault(Fault::Duplicate(word.at)));
        }
        self.names.add(alloc, &word.name)?;
        self.places.push(word.at)?;
        Ok(())
    }

    fn read_kind(alloc: Global, _: &(), tree: &Tree) -> Result<Name, ReadError> {
        Ok(read_type_name(alloc, tree)?.name)
    }

    fn give(&mut self, alloc: Global, parent: &Name, waiting: &[Named]) -> Result<(), ReadError> {
        for word in waiting {
            self.give_one(alloc, parent, word)?;
        }
        Ok(())
    }

    fn no_type(alloc: Global) -> Result<Name, ReadError> {
        object_name(alloc)
    }
}

fn read_declared(alloc: Global, items: &[Tree]) -> Result<Declared, ReadError>
    ensures { GivesAs declared (types.declared_from types.only_object [] (views items.now)) result }
{
    let mut types = Declared::new(alloc)?;
    read_typed(alloc, &(), &mut types, items)?;
    Ok(types)
}

// Adds a name if it is not there.
#[tactic(auto, using(crate::proofs::published::NameLemmas::number_none))]
fn add_name(alloc: Global, names: &mut Table, name: &Name) -> Result<(), ReadError>
    ensures added { OnOk result (names.new ≡ types.with_name names.old name.now) }
    ensures memory { IfErr result (λ e. e ≡ errors.Memory) }
{
    if names.number(name).is_some() {
        return Ok(());
    }
    names.add(alloc, name)
}

// Adds each parent that is not there.
fn add_parents(alloc: Global, names: &mut Table, parents: &[Name]) -> Result<(), ReadError>
    ensures added { OnOk result (names.new ≡ types.with_parents names.old parents.now) }
    ensures memory { IfErr result (λ e. e ≡ errors.Memory) }
{
    for parent in parents {
        add_name(alloc, names, parent)?;
    }
    Ok(())
}

// The numbers of the parents, that of `object` first.
fn parent_numbers(alloc: Global, names: &Table, parents: &[Name]) -> Result<Vec<u32>, ReadError>
    ensures numbers { IfOk result (λ v. v.items ≡ 0 ∷ map (types.number_in names.now) parents.now) }
    ensures memory { IfErr result (λ e. e ≡ errors.Memory) }
{
    let mut numbers = Vec::new(alloc);
    numbers.push(OBJECT)?;
    for parent in parents {
        numbers.push(names.number(parent).unwrap_or(OBJECT))?;
    }
    Ok(numbers)
}

// The types of these names under these parents.
fn types_under(alloc: Global, names: &[Name], numbers: &[u32]) -> Result<Vec<TypeDecl>, ReadError>
    ensures types { IfOk result (λ v. v.items ≡ types.types_under names.now numbers.now) }
    ensures memory { IfErr result (λ e. e ≡ errors.Memory) }
{
    let mut decls = Vec::new(alloc);
    let mut rest = numbers;
    for name in names {
        let name = copy_name(alloc, name)?;
        let parent = match rest.split_first() {
            None => OBJECT,
            Some((number, after)) => {
                rest = after;
                *number
            }
        };
        decls.push(TypeDecl { name, parent })?;
    }
    Ok(decls)
}

// The types of these names, each but the first under the parent of its place.
fn types_named(alloc: Global, names: &Table, parents: &[Name]) -> Result<Vec<TypeDecl>, ReadError>
    ensures types { IfOk result (λ v. v.items ≡ types.types_under names.now (0 ∷ map (types.number_in names.now) parents.now)) }
    ensures memory { IfErr result (λ e. e ≡ errors.Memory) }
{
    let numbers = parent_numbers(alloc, names, parents)?;
    types_under(alloc, names.names(), numbers.as_slice())
}

fn parents_in(alloc: Global, decls: &[TypeDecl]) -> Result<Vec<u32>, ReadError>
    ensures parents { IfOk result (λ v. v.items ≡ parents_of decls.now) }
    ensures memory { IfErr result (λ e. e ≡ errors.Memory) }
{
    let mut parents = Vec::new(alloc);
    for decl in decls {
        parents.push(decl.parent)?;
    }
    Ok(parents)
}

// Tests that each declared type lies under `object`.
fn check_rooted(alloc: Global, parents: &[u32], places: &[u32]) -> Result<(), ReadError>
    requires parents { AreParents parents.now }
    requires room { length places.now < length parents.now }
    ensures { Gives (types.rooted parents.now 1 places.now) result }
{
    let last = ancestors(alloc, parents, parents.len())?;
    let mut kind: usize = 1;
    for place in places {
        if !is_rooted(parents, last.as_slice(), kind) {
            return Err(ReadError::Fault(Fault::Shape(*place)));
        }
        kind += 1;
    }
    Ok(())
}

// Tests the same of types, by their parents.
fn check_places(alloc: Global, decls: &[TypeDecl], places: &[u32]) -> Result<(), ReadError>
    requires parents { AreParents (parents_of decls.now) }
    requires room { length places.now < length (parents_of decls.now) }
    ensures { Gives (types.rooted (parents_of decls.now) 1 places.now) result }
{
    let parents = parents_in(alloc, decls)?;
    check_rooted(alloc, parents.as_slice(), places)
}

/// The types of a domain, by number, and their names.
#[derive(Drop)]
pub struct TypeTable {
    pub decls: Types,
    pub names: Table,
}

/// Reads the items of the section of types.
pub fn read_types(alloc: Global, items: &[Tree]) -> Result<TypeTable, ReadError>
    ensures types { GivesAs (λ t. t.decls) (types.types (views items.now)) result }
    ensures names { IfOk result (λ t. t.names ≡ map (λ d. d.name) t.decls) }
{
    let Declared {
        mut names,
        places,
        parents,
    } = read_declared(alloc, items)?;
    add_parents(alloc, &mut names, parents.as_slice())?;
    let decls = types_named(alloc, &names, parents.as_slice())?;
    check_places(alloc, decls.as_slice(), places.as_slice())?;
    Ok(TypeTable {
        decls: Types::of(decls),
        names,
    })
}
