//! The run of one horizon: a solver over the formula that says whether a plan of so many steps exists. It stops after any
//! number of conflicts and goes on later, with another worker if need be.
//!
//! ```text
//! let mut run = HorizonRun::new(alloc, task, form, 5)?;
//! run.go_on(50)?;
//! match run.standing() {
//!     Standing::Found => ..    // `values` are a model of the formula
//!     Standing::Refuted => ..  // `certify` checks its log
//!     Standing::Going => ..    // it has handled 50 conflicts
//! }
//! ```
//!
//! An [`AheadRun`] is such a run whose solver may be ahead of what was granted. A run that is [`Started`] is made in the first turn that
//! advances it.
//!
//! `resume` makes such a run one that workers of solver_pool advance, and `run` has its log checked by rup_check (`certify`). `ahead` grants and
//! works ahead; `catch_up` there checks the log of a solver that refuted, so the worker whose turn refutes does it, beside the others. Clients
//! see the state that the granted conflicts lead to (`seen`). `unmade` has what a run is made from, and `turns` makes a `Started` a run of
//! solver_pool; where there is no memory to make it, `held` and `lost` keep what clients see of it: it is spoilt. A run is made in the tables
//! of one that ended, where there is one (`Unmade::made`). A poll never works ahead.
#![tactic(auto)]

mod ahead;
mod held;
mod lost;
mod resume;
mod run;
mod seen;
mod started;
mod turns;
mod unmade;

pub use ahead::AheadRun;
pub use run::HorizonRun;
pub use started::Started;
pub use unmade::Unmade;
