//! What tests and benchmarks run on: tasks, pairs of literals that are known of a task's states, and what stands for what runs are
//! handed.
//!
//! `worked` has two tasks that are printed in full, `drawn` small ones that are drawn from numbers, `rooms` a robot in up to 1,024
//! rooms, and `large` tasks near the limits. `kept` tests by a look at each action alone whether pairs hold wherever a
//! task's actions lead. `gates` and `driver` stand for what runs are handed, and note what they are told.
#![tactic(auto)]

pub mod actions;
mod counted;
pub mod dice;
pub mod drawn;
mod driver;
pub mod gates;
pub mod kept;
pub mod large;
pub mod rooms;
pub mod worked;

pub use driver::Counting;
