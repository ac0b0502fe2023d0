// Small tasks.
use gt_core::act::{Act, Acts};
use gt_core::eff::{Eff, Effs};
use gt_core::lits::{Bits, Lits};
use gt_core::task::Task;
use std::alloc::Global;
use std::process::Abort;

/// An action by its precondition and its effects, each by its condition and its literal.
pub(crate) type Sketch = (&'static [u32], &'static [(&'static [u32], u32)]);

/// Literals that all have to hold.
fn lits(rt: &impl Abort, alloc: Global, numbers: &[u32]) -> Lits {
    Lits::copied_from(alloc, numbers).expect(rt, "memory")
}

/// The action of a sketch.
fn drawn(rt: &impl Abort, alloc: Global, sketch: &Sketch) -> Act {
    let (pre, made) = *sketch;
    let mut effects = Effs::new(alloc);
    for (condition, lit) in made {
        let effect = Eff::new(alloc, lits(rt, alloc, condition), *lit);
        effects
            .push(effect.expect(rt, "memory"))
            .expect(rt, "memory");
    }
    Act::new(lits(rt, alloc, pre), effects)
}

/// The actions of sketches.
fn all_drawn(rt: &impl Abort, alloc: Global, sketches: &[Sketch]) -> Acts {
    let mut acts = Acts::new(alloc);
    for sketch in sketches {
        acts.push(drawn(rt, alloc, sketch)).expect(rt, "memory");
    }
    acts
}

/// The task of these actions over so many facts, with the goal that the first one holds.
pub(crate) fn task_of(
    rt: &impl Abort,
    alloc: Global,
    facts: u32,
    init: &[bool],
    sketches: &[Sketch],
) -> Task {
    let init = Bits::copied_from(alloc, init).expect(rt, "memory");
    let goal = lits(rt, alloc, &[0]);
    let acts = all_drawn(rt, alloc, sketches);
    Task::try_new(facts, init, goal, false, acts).expect(rt, "a task")
}
