//! The words of propositional reasoning that the solver, the encoder and the checker share.
//!
//! A literal is a numbered variable or its negation, a clause is a list of literals of which one has to be true, and a
//! formula is a list of clauses. A log is a list of learned clauses, each with the numbers of the clauses that it is
//! learned from. The definitions in `specs/` say when an assignment satisfies a formula and when a log is a derivation;
//! `proofs/published/Refutation.antt` has the law that a formula with a derivation of the empty clause is unsatisfiable.
//!
//! `ClauseList` keeps any number of clauses in two blocks, with a third to sort in. `Values` keeps the truth of each literal by its code, a
//! byte each, and a place below which all variables have values. `Chooser` is the trait by which a solver asks for its decisions.
//!
//! A `Formula` has clauses that are told, a repeated part (the clauses of one step and of one time, seen with their variables moved at each
//! step and time: `repeated`), and clauses that were added; contracts see the flat list. So it takes the room of one step and one time,
//! whatever its horizon, and these stand in memory that copies of the formula share (`shared_list`). `clause` gives a `View` (`view`): the
//! literals as they stand, and how each is moved. From the first literal that is not below its limit on none is, so who reads many goes along
//! the two kinds one after the other. `Repeated` keeps how many clauses one step, one time and all of them have, so that a clause is found by
//! one division. Beside a shared list stands the table of its clauses of two literals by literal (`PairTable`), made once.
#![tactic(auto)]

pub mod chooser;
pub mod clause;
pub mod clause_list;
pub mod divisor;
pub mod formula;
pub mod literal;
pub mod log;
pub mod pair;
mod pair_build;
pub mod pair_table;
pub mod repeated;
pub mod shared_list;
mod sizes;
pub mod values;
pub mod view;
