//! States that a walk has entered, and what an action that is proposed adds to them.

ghost use Rattle.std.specs.Prelude.{◌≡◌, ◌<◌, ◌≤◌, ◌∷◌, [], Some, true, false, length, slice_get};
ghost use Rattle.gt_core.specs.Literal.{state_of};
ghost use Rattle.gt_core.specs.Execution.{IsGoal, next_values};
ghost use Rattle.state_store.specs.Packed.{unpacked, IsPacked};
ghost use Rattle.successors.specs.Ways.{IsWays};
ghost use Rattle.state_search.specs.own.Walk.{IsWalk, IsProposed};
ghost use Rattle.state_search.specs.declared.walk.Proposed.TheVariants.{Entered};

use gt_core::task::Task;
use state_store::store;
use state_store::store::Store;
use successors::next::next;
use successors::ways::Ways;

/// What came of an action that was proposed: it cannot run there, or leads to a known state, or to a new one, which was entered
/// as the last one; or to one for which there is no room.
#[derive(Clone, Copy, PartialEq, Eq)]
pub enum Proposed {
    Unable,
    Known,
    Entered,
    Full,
}

/// Whether a state, a truth value a fact, is a goal.
pub fn is_goal(task: &Task, state: &[bool]) -> bool
    requires { length state.now ≡ task.now.facts }
    ensures goal { result ≡ true → IsGoal task.now (state_of state.now) }
    ensures none { result ≡ false → IsGoal task.now (state_of state.now) → ⊥ }
{
    task.facts();
    for lit in task.goal() {
        if !task.holds(state, *lit) {
            return false;
        }
    }
    !task.hopeless()
}

/// What comes of an action in a stored state, whose row is `before`. Where the action leads to a state that is entered, `after`
/// becomes the row of that state.
pub fn propose(
    task: &Task,
    ways: &Ways,
    store: &mut Store,
    before: &[u64],
    after: &mut Vec<u64>,
    parent: u32,
    act: u32,
) -> Proposed
    requires ways { IsWays task.now ways.now }
    requires walk { IsWalk task.now store.old }
    requires packed { IsPacked task.now.facts before.now }
    requires parent { slice_get store.old.states parent ≡ Some (unpacked task.now.facts before.now) }
    requires after { length after.old.items ≡ length before.now }
    requires act { act < length task.now.actions }
    ensures proposed { IsProposed task.now store.old store.new parent (unpacked task.now.facts before.now) act result }
    ensures walk { IsWalk task.now store.new }
    ensures after { result ≡ Entered → unpacked task.now.facts after.new.items ≡ next_values task.now (state_of (unpacked task.now.facts before.now)) act }
    ensures packed { result ≡ Entered → IsPacked task.now.facts after.new.items }
    ensures long { length after.new.items ≡ length after.old.items }
{
    if !next(task, &ways.moves, before, act, after) {
        return Proposed::Unable;
    }
    match store.enter(after, parent, act) {
        store::Entered::Known(_) => Proposed::Known,
        store::Entered::New => Proposed::Entered,
        store::Entered::Full => Proposed::Full,
    }
}

/// Makes the initial state, whose row is `first`, the only one in a store. So many may be entered.
pub(crate) fn begin(task: &Task, store: &mut Store, first: &[u64], most: u32)
    requires some { 0 < most }
    requires room { most ≤ store.old.room }
    requires facts { store.old.facts ≡ task.now.facts }
    requires packed { IsPacked task.now.facts first.now }
    requires first { unpacked task.now.facts first.now ≡ task.now.initial }
    ensures walk { IsWalk task.now store.new }
    ensures first { store.new.states ≡ task.now.initial ∷ [] }
    ensures parents { store.new.parents ≡ 0 ∷ [] }
    ensures most { store.new.most ≡ most }
    ensures room { store.new.room ≡ store.old.room }
{
    store.clear(most);
    store.enter(first, 0, 0);
}
