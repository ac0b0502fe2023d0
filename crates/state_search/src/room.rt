//! The memory of walks, which is taken before they begin.

ghost use Rattle.std.specs.Prelude.{◌≡◌, ◌<◌, IfOk};
ghost use Rattle.state_search.specs.Room.{IsRoom};

use containers::memory::Memory;
use gt_core::task::Task;
use state_store::pack::row_of;
use state_store::store::Store;
use std::alloc::Global;
use successors::ways::Ways;

/// Room for the states of a walk, the actions of the task, its initial state as a row, and two rows for states at hand.
#[derive(Drop)]
pub struct Room {
    pub store: Store,
    pub ways: Ways,
    pub first: Vec<u64>,
    pub before: Vec<u64>,
    pub after: Vec<u64>,
}

impl Room {
    /// Room for walks through a task, each of so many states at most.
    pub fn new(alloc: Global, task: &Task, most: u32) -> Result<Room, Memory>
        requires { 0 < most }
        ensures room { IfOk result (λ r. IsRoom task.now r) }
        ensures size { IfOk result (λ r. r.store.room ≡ most) }
    {
        // For the proof: the task is lawful.
        let _facts = task.facts();
        let store = Store::new(alloc, task.facts(), most)?;
        let first = row_of(alloc, task.init())?;
        Ok(Room {
            store,
            ways: Ways::new(alloc, task)?,
            before: Vec::from_slice(alloc, &first)?,
            after: Vec::from_slice(alloc, &first)?,
            first,
        })
    }
}
