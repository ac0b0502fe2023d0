//! Of which step of a formula the clause of each slot is. With it such a clause is read by its step and its place, without a division.
ghost use Rattle.std.specs.Prelude.{◌≡◌, ◌+◌, ◌*◌, ◌<◌, ◌≤◌, length, IfOk};
ghost use Rattle.propagation.specs.own.Steps.{ArePlaced, AreStepped, IsPlaced};

use clause_base::formula::Formula;
use clause_base::repeated::Repeated;
use containers::let_go;
use containers::memory::Memory;
use std::alloc::Global;

/// The clauses of the steps of a formula, and of which step those of the first slots are. In a planning formula all clauses before the
/// steps have one literal or none, so that these are the slots of all clauses of steps.
pub struct Steps {
    pub part: Repeated,
    /// How many clauses come before those of the steps.
    pub before: u32,
    /// How many clauses a step has.
    pub size: u32,
    /// For the first slots, whose clauses are of steps, the step of each.
    pub of_slots: Vec<u32>,
}

/// All parts are let go in one call, so that a proof has one step for it and not one for each part.
impl Drop for Steps {
    fn drop(self) {
        let_go!(self: Steps { part, before, size, of_slots });
    }
}

/// The step of the clause with a number, where so many come before those of the steps; the number of steps, where it is of none.
fn step_of(number: u32, before: u32, steps: u32, size: u32) -> u32
    requires { before + steps * size ≤ 1073741824 }
    ensures { result < steps → IsPlaced before steps size result number }
{
    if number < before || number - before >= steps * size {
        return steps;
    }
    (number - before) / size
}

/// The steps of the clauses of the first slots, up to one that is of none.
fn steps_of(
    alloc: Global,
    slots: &[u32],
    before: u32,
    steps: u32,
    size: u32,
) -> Result<Vec<u32>, Memory>
    requires { before + steps * size ≤ 1073741824 }
    ensures long { IfOk result (λ of_slots. length of_slots.items ≤ length slots.now) }
    ensures placed { IfOk result (λ of_slots. ArePlaced before steps size of_slots.items slots.now) }
{
    let mut of_slots = Vec::with_capacity(alloc, slots.len())?;
    for slot in 0..slots.len() {
        let step = step_of(slots[slot], before, steps, size);
        if step >= steps {
            return Ok(of_slots);
        }
        of_slots.push(step)?;
    }
    Ok(of_slots)
}

impl Steps {
    /// The steps of the clauses of slots of a formula.
    pub fn new(alloc: Global, formula: &Formula, slots: &[u32]) -> Result<Steps, Memory>
        ensures { IfOk result (λ steps. AreStepped formula.now.clauses slots.now steps) }
    {
        // For the proof: a formula has at most 1,073,741,824 clauses.
        let _few = formula.count();
        let parts = formula.parts();
        let part = parts.repeated.copy(alloc)?;
        let before = parts.told.count() as u32;
        let steps = part.horizon();
        let all = part.step().count();
        // Where there is no step, the list may be longer.
        let size = all.min(1_073_741_824) as u32;
        let of_slots = steps_of(alloc, slots, before, steps, size)?;
        Ok(Steps {
            part,
            before,
            size,
            of_slots,
        })
    }
}
