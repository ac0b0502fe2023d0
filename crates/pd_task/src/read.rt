// The passes of a domain and of a problem.
ghost use Rattle.std.specs.Prelude.{◌≡◌, [], List, codes};
ghost use Rattle.pd_model.specs.Names.{type_names};
ghost use Rattle.pd_model.specs.declared.schemas.Schema.{Schema};
ghost use Rattle.pd_sexp.specs.View.{view, views};
ghost use Rattle.pd_words.specs.First.{Gives, GivesAs};
ghost use Rattle.pd_words.specs.Frames as frames;
ghost use Rattle.pd_task.specs.Reading as reading;
ghost use Rattle.pd_task.specs.own.Scope.{names_with};
ghost use Rattle.pd_task.specs.own.Tables.{domain_of};

use crate::actions::read_actions;
use crate::cond::read_cond;
use crate::init::read_init;
use crate::objects::ObjectTable;
use crate::predicates::{PredicateTable, read_predicates};
use crate::tables::DomainTables;
use crate::vocabulary::Vocabulary;
use pd_model::{Atoms, Conds, ObjectDecls, Parts, Predicates, Schemas};
use pd_sexp::Tree;
use pd_words::{
    Fault, ReadError, Scope, TypeTable, find_section, items_under, no_more, read_domain_frame,
    read_problem_frame, read_types,
};
use std::alloc::Global;

/// Reads a domain, pass by pass.
#[tactic(auto, using(crate::proofs::ObjectLemmas::same_lengths))]
pub fn read_domain(alloc: Global, tree: &Tree) -> Result<DomainTables, ReadError>
    ensures { GivesAs domain_of (reading.domain_parts (view tree.now)) result }
{
    let sections = read_domain_frame(alloc, tree)?;
    let types = read_types(alloc, items_under(":types", sections))?;
    let mut objects = ObjectTable::new(alloc);
    objects.read(alloc, &types.names, items_under(":constants", sections))?;
    let predicates = read_predicates(alloc, &types.names, items_under(":predicates", sections))?;
    let vocabulary = Vocabulary {
        types: &types.names,
        predicates: &predicates.names,
        arities: predicates.arities.as_slice(),
        objects: &objects.names,
    };
    let schemas = read_actions(alloc, &vocabulary, sections)?;
    Ok(DomainTables {
        types,
        objects,
        predicates,
        schemas,
    })
}

// The goal of a problem with these sections.
fn read_goal(alloc: Global, vocabulary: &Vocabulary, sections: &[Tree]) -> Result<Conds, ReadError>
    ensures { Gives (reading.goal_of (names_with vocabulary.now []) (frames.find_section (codes ":goal") (views sections.now))) result }
{
    let mut conds = Vec::new(alloc);
    let Some((at, items)) = find_section(":goal", sections) else {
        return Ok(Conds::of(conds));
    };
    let Some((goal, more)) = items.split_first() else {
        return Err(ReadError::Fault(Fault::Shape(at)));
    };
    let scope = Scope::new(alloc);
    read_cond(alloc, vocabulary, &scope, goal, &mut conds)?;
    no_more(more)?;
    Ok(Conds::of(conds))
}

// Reads what a problem adds to a domain of these types and predicates: objects, and after them the initial state and the goal.
#[tactic(auto, using(crate::proofs::ObjectLemmas::same_lengths))]
fn read_rest(
    alloc: Global,
    types: &TypeTable,
    predicates: &PredicateTable,
    objects: &mut ObjectTable,
    tree: &Tree,
) -> Result<(Atoms, Conds), ReadError>
    requires { types.now.names ≡ type_names types.now.decls }
    ensures { (schemas : List Schema) → GivesAs (λ r. record { types = types.now.decls; predicates = predicates.now.decls.items; objects = objects.new.decls.items; schemas = schemas; init = r.0; goal = r.1 })
        (reading.problem_parts (record { types = types.now.decls; constants = objects.old.decls.items; predicates = predicates.now.decls.items; schemas = schemas }) (view tree.now)) result }
{
    let sections = read_problem_frame(alloc, tree)?;
    objects.read(alloc, &types.names, items_under(":objects", sections))?;
    let vocabulary = Vocabulary {
        types: &types.names,
        predicates: &predicates.names,
        arities: predicates.arities.as_slice(),
        objects: &objects.names,
    };
    let init = read_init(alloc, &vocabulary, items_under(":init", sections))?;
    let goal = read_goal(alloc, &vocabulary, sections)?;
    Ok((init, goal))
}

/// Reads a problem of a domain, pass by pass.
pub fn read_problem(alloc: Global, domain: DomainTables, tree: &Tree) -> Result<Parts, ReadError>
    ensures { Gives (reading.problem_parts (domain_of domain) (view tree.now)) result }
{
    let DomainTables {
        types,
        mut objects,
        predicates,
        schemas,
    } = domain;
    let (init, goal) = read_rest(alloc, &types, &predicates, &mut objects, tree)?;
    Ok(Parts {
        types: types.decls,
        predicates: Predicates::of(predicates.decls),
        objects: ObjectDecls::of(objects.decls),
        schemas: Schemas::of(schemas),
        init,
        goal,
    })
}
