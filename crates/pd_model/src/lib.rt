//! The parts of a planning task, and what it means to execute calls of its actions: PDDL 2.1, level 1
//! (Fox and Long 2003).
//!
//! `specs/State.antt` says what a state is, `specs/Instance.antt` when a literal holds in it,
//! `specs/Fits.antt` which objects an action may be called with, `specs/Exec.antt` what a call does, and
//! `specs/Plan.antt` which lists of calls are plans. `specs/WellFormed.antt` says what each task keeps.
//!
//! `Pddl` is made of well-formed `Parts`, and contracts see it as these. `Pddl::new` works out once what is asked of types again and again:
//! `walk` walks the tree of types by the chains of children, without a stack; `type_tree` keeps the numbers at which types are entered and
//! left, `line` the objects sorted by them. So `Pddl::fits` takes constant time, `fitting_count` logarithmic time, and `fitting_objects` time
//! by the length of its answer; no clause speaks of time, and the tables are in the invariant of `Pddl` alone.
//!
//! The state of a run (`state`) is a sorted set of atoms. A step looks up what its instance names and copies no state: the active adds and
//! deletes are found first, then the deletes are taken away, then the adds are put in. `exec` lets a variable that an effect does not name
//! stand for one object, so that a `forall` over many variables costs what it can touch. `Effects` keeps beside each effect whether its types
//! and its condition are those of the one before, so that no crate above compares what they share.
#![tactic(auto)]

mod atoms;
mod calls;
mod conds;
mod effects;
mod exec;
mod few;
mod fits;
mod instance;
mod line;
mod objects;
mod parts;
mod pddl;
mod predicates;
mod run;
mod sameness;
mod schemas;
mod state;
mod type_tree;
mod types;
mod variables;
mod walk;
mod which;

pub use atoms::{Atom, Atoms, Pattern, Term, Terms};
pub use calls::{Call, Calls, Verdict};
pub use conds::{Cond, Conds, SharedConds};
pub use containers::memory::Memory;
pub use effects::{Effect, Effects};
pub use few::few_parts;
pub use fits::fitting_objects;
pub use instance::{instance_of, object_of};
pub use objects::{ObjectDecl, ObjectDecls, Objects};
pub use parts::Parts;
pub use pd_sexp::Name;
pub use pddl::Pddl;
pub use predicates::{Predicate, Predicates};
pub use sameness::Sameness;
pub use schemas::{Schema, Schemas};
pub use state::State;
pub use types::{SharedTypeNumbers, TypeDecl, TypeNumbers, Types};
pub use which::Which;
