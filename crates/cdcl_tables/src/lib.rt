//! A solver's tables: its trail, and where it finds its clauses, by number and by the literals that become false.
//!
//! `trail` has the truth of each literal and the position of each variable, and where each level begins. Who watches literals reads it
//! as an `assignment`.
//!
//! `store` has the clauses by number: those of the formula are read where they stand in it, the others stand in blocks that it shares
//! with the log. `index` has the clauses of two literals of a formula by literal: those of one step and of one time stand in tables
//! once. `chains` has for each literal the clauses that watch it, as chains of nodes that are moved from one to another without memory.
//!
//! No entry of the trail keeps its level: an entry is of the current level where its position is not before the last decision's, and another
//! level is found by halving. To backtrack takes back the values of the tail in one pass.
//!
//! A literal's pairs are read from the step that ends where it is, the step that begins there and its time, moved as they are read: five
//! lists. `Lists::origin` says once of which step or time a literal is. A chain is walked in place (`Place`: a node and the one before it): a
//! node that stays costs no write of the chain, and one that moves or goes is taken out where the walk stands.
#![tactic(auto)]

pub mod added;
pub mod assignment;
pub mod chains;
pub mod index;
pub mod list;
pub mod lists;
pub mod lookup;
pub mod origin;
pub mod refill;
mod shape;
pub mod store;
pub mod trail;
