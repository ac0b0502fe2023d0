//! Plan files: the calls that the bytes of a file spell, as any planner writes them.
//!
//! A plan file is a sequence of lists `(name object ..)`, with blanks and comments between the tokens, as in
//! a domain or a problem. Other lines than calls are comments, so that a planner's report is a plan file.
//! `specs/WordLists.antt` says which lists of words the bytes are, `specs/PlanFile.antt` which calls these
//! spell, and which fault comes first.
#![tactic(auto)]

ghost use Rattle.std.specs.Prelude.{◌≤◌, ◌<◌, ◌^◌, ℕ, IfOk, IsTrue, length};
ghost use Rattle.std.specs.List.{list_all};
ghost use Rattle.pd_model.specs.Fits.{is_call};
ghost use Rattle.pd_plan.specs.own.Answers.{Gives};
ghost use Rattle.pd_plan.specs.PlanFile.{plan_file};
ghost use Rattle.containers.specs.Limits.{most_bytes};

mod calls;
mod fault;
mod lists;
mod names;
mod plan_text;
mod reader;

use calls::read_calls;
pub use fault::PlanFault;
use lists::read_lists;
use pd_model::{Calls, Pddl};
pub use plan_text::laws;
use std::alloc::Global;

/// Reads the calls that a plan file spells, each a call of the task.
///
/// Places are offsets of bytes, from 0. `Syntax` comes before all others: a wrong byte, a word outside a
/// list, a list inside a list, a parenthesis too many, an empty list (told where it opens), or an unclosed
/// list (told at the length). Then list by list: `Unknown` where the first word names no action, `Arity` at
/// the list where the objects are not as many as the parameters, and object by object `Unknown` where it is
/// not declared and `Mistyped` where it does not fit its parameter.
pub fn read_plan(alloc: Global, bytes: &[u8], pddl: &Pddl) -> Result<Calls, PlanFault>
    requires { length bytes.now ≤ most_bytes }
    ensures plan { Gives (plan_file pddl.now bytes.now) result }
    ensures are_calls { IfOk result (λ calls. IsTrue (list_all (is_call pddl.now) calls)) }
    ensures few { IfOk result (λ calls. length calls < 2 ^ 32) }
{
    let lists = read_lists(alloc, bytes)?;
    read_calls(alloc, pddl, &lists)
}
