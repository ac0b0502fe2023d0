//! Which clause is the first that is kept and pending, and what it asks for: two literals of each clause are watched.
//!
//! Watched literals are those of Moskewicz and others (2001): as long as two literals of a clause are not false, or one is true,
//! nothing follows from it, so that it is looked at only where one of two such literals becomes false. It then watches another
//! one, or is a unit clause or false. Nothing has to be done for the watched literals where literals are taken back. A clause of
//! two literals has no choice of what it watches: it stands in the lists of both, and each tells the other literal, so that the
//! clause itself is not read (as in MiniSat: Eén and Sörensson, 2003).
//!
//! What is asked for is the least clause that is pending, since the next event is that of the first clause in order of number,
//! and not that of the literal that became true first. So the clauses that may be pending are kept as a set of their numbers, with
//! what each asks for, in place of a queue of literals: of each member all literals are false but the one that it asks for, which
//! stays so as long as the trail grows. Whether it is still pending is looked at where it is the least and is wanted.
//!
//! `propagator` has the type that the solver holds; it owns the trail and reads it as an `Assignment`. `pending` is the set of clauses that may
//! be pending, with what each asks for by its number. `front` takes the least member out until it is kept and its asked literal is not true:
//! that is what `next` gives.
//!
//! `given` makes the tables of a formula's clauses at once, before any literal is true. A clause of more than two literals has a slot and
//! watches its last two; one of two literals is in the `PairIndex` alone, so that an assignment goes over at most five lists of it (`marks`);
//! one of fewer is pending from the beginning. `steps` keeps of which step the clauses of the first slots are, so that a woken clause of a step
//! is read by its step and its place (`slots`). An added clause has a slot (`take_slot`) and watches the two literals that are not false for
//! longest along the trail (`enter`, `fall`). `room` makes room for 4,096 learned clauses from the beginning, so that the first of them does not
//! have the tables of all clauses moved.
//!
//! `visit` walks along the chain of a literal that became false. The two nodes of a slot are numbered as the two literals of a variable are, and
//! each has as its blocking literal the one that the other watches. A slot keeps nothing else but the place where the search for another
//! literal goes on; that search goes along a step's own literals in one run and along the facts in a second one (`scan`). Where the blocking
//! literal is true the clause is not read. Else the node of a clause that has another literal which is not false goes to the chain of that, any
//! other of a kept clause stays, and where all but the blocking literal are false the clause asks for that one.
//!
//! `backtrack` and `cut` shorten the trail (`undo`). Where the length was flagged quiet (`quiet`: nothing was pending when a literal was assigned
//! there) the set is emptied; else `backtrack` looks at all clauses, and `cut` at those of a list and from a number on (`known` gives such a
//! list). `remove` clears a flag; a node of a clause that is not kept leaves its chain when it is next visited. None of `assign`, `next`,
//! `backtrack`, `cut` and `remove` takes memory.
#![tactic(auto)]

mod enter;
mod fall;
mod front;
mod given;
pub mod known;
mod marks;
mod pending;
pub mod propagator;
mod quiet;
mod room;
mod scan;
mod slots;
mod spare;
mod status;
mod steps;
mod tables;
mod take_slot;
mod undo;
mod visit;
