//! Reads a domain and a problem as a planning task, in a fragment of PDDL 2.1, level 1 (Fox and Long 2003).
//!
//! `specs/Reading.antt` says which task two trees are, pass by pass, and which fault comes first where
//! they are none; the passes stand in the files beside it.
//!
//! Objects, predicates and actions are tables that keep their names with them (`ObjectTable`, `PredicateTable`, `ActionTable`,
//! `DomainTables`): that the names are those of what is declared is an invariant of the type. A list is read by its head in one place
//! (`headed`); `found` keeps what the next effect stands under. The parts of a task are those of pd_model, which this crate passes on.
#![tactic(auto)]

ghost use Rattle.std.specs.Prelude.{◌≡◌, Ok, IfOk, IfErr, IsTrue};
ghost use Rattle.pd_sexp.specs.View.{view};
ghost use Rattle.pd_sexp.specs.Word.{has_words};
ghost use Rattle.pd_task.specs.Reading as readings;
ghost use Rattle.pd_task.specs.own.Told.{IsTold, told_error};

mod action;
mod actions;
mod cond;
mod effects;
mod error;
mod found;
mod headed;
mod init;
mod objects;
mod predicates;
mod read;
mod tables;
mod terms;
mod vocabulary;

pub use error::PddlError;
use pd_model::few_parts;
pub use pd_model::{
    Atom, Atoms, Call, Calls, Cond, Conds, Effect, Effects, Memory, Name, ObjectDecl, ObjectDecls,
    Objects, Parts, Pattern, Pddl, Predicate, Predicates, Schema, Schemas, Term, Terms, TypeDecl,
    TypeNumbers, Types, Verdict, Which,
};
use pd_sexp::Tree;
use pd_words::{Fault, ReadError};
use read::{read_domain, read_problem};
use std::alloc::Global;

/// Reads the task that a domain and a problem say.
///
/// The passes run in this order, and the first cause that is found is answered with its file and place:
/// the domain's frame, its types, constants, predicates and actions, then the problem's frame, its
/// objects, initial state and goal. Places are offsets of bytes, from 0. `Memory` is want of memory; it
/// also comes where more than 4,294,967,295 things of one kind would need a number.
///
/// The words of both trees are small letters, as those of a tree that `read_tree` gives are.
pub fn read_pddl(alloc: Global, domain: &Tree, problem: &Tree) -> Result<Pddl, PddlError>
    requires domain { IsTrue (has_words (view domain.now)) }
    requires problem { IsTrue (has_words (view problem.now)) }
    ensures task { IfOk result (λ p. readings.reading (view domain.now) (view problem.now) ≡ Ok p) }
    ensures fault { IfErr result (λ e. IsTold (readings.reading (view domain.now) (view problem.now)) e) }
{
    let tables = match read_domain(alloc, domain) {
        Ok(tables) => tables,
        Err(error) => return Err(told(Which::Domain, error)),
    };
    let parts = match read_problem(alloc, tables, problem) {
        Ok(parts) => parts,
        Err(error) => return Err(told(Which::Problem, error)),
    };
    if !few_parts(&parts) {
        return Err(PddlError::Memory);
    }
    Ok(Pddl::new(alloc, parts)?)
}

fn told(file: Which, error: ReadError) -> PddlError
    ensures { result ≡ told_error file error }
{
    match error {
        ReadError::Memory => PddlError::Memory,
        ReadError::Fault(Fault::Shape(at)) => PddlError::Shape { file, at },
        ReadError::Fault(Fault::Unknown(at)) => PddlError::Unknown { file, at },
        ReadError::Fault(Fault::Arity(at)) => PddlError::Arity { file, at },
        ReadError::Fault(Fault::Duplicate(at)) => PddlError::Duplicate { file, at },
        ReadError::Fault(Fault::Unsupported(at)) => PddlError::Unsupported { file, at },
    }
}
