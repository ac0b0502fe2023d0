// Plans, call by call.
ghost use Rattle.std.specs.Prelude.{◌≡◌, ◌↔◌, ◌<◌, ◌^◌, ℕ, List, IfOk, OnOk, IsTrue, length};
ghost use Rattle.std.specs.List.{list_all};
ghost use Rattle.pd_model.specs.State.{SameState};
ghost use Rattle.pd_model.specs.Exec.{exec, next};
ghost use Rattle.pd_model.specs.own.Follows.{Follows};
ghost use Rattle.pd_model.specs.Fits.{is_call};
ghost use Rattle.pd_model.specs.Plan.{verdict, IsPlan};

use crate::exec::active_atoms;
use crate::instance::are_true;
use crate::state::State;
use crate::{Call, Effect, Memory, Pddl, Verdict};
use std::alloc::Global;

/// Applies the effects: the active ones are found in the state before, the deletes come before the adds.
fn apply(
    alloc: Global,
    p: &Pddl,
    state: &mut State,
    objects: &[u32],
    effects: &[Effect],
) -> Result<(), Memory>
    ensures { OnOk result (SameState state.new (next p.now state.old objects.now effects.now)) }
{
    let gains = active_atoms(alloc, p, state, objects, effects, true)?;
    let deletes = active_atoms(alloc, p, state, objects, effects, false)?;
    state.subtract(deletes);
    state.unite(gains)?;
    Ok(())
}

/// Runs the call, and answers whether it can run.
fn run_call(alloc: Global, p: &Pddl, state: &mut State, call: &Call) -> Result<bool, Memory>
    requires { IsTrue (is_call p.now call.now) }
    ensures { IfOk result (λ ran. Follows (exec p.now state.old call.now) ran state.new) }
{
    let Some(schema) = p.schemas().as_slice().get(call.schema as usize) else {
        return Ok(false);
    };
    let objects = call.objects.as_slice();
    if !are_true(alloc, state, objects, schema.pre.as_slice())? {
        return Ok(false);
    }
    apply(alloc, p, state, objects, schema.effects.as_slice())?;
    Ok(true)
}

impl Pddl {
    /// What the calls come to from the initial state on.
    pub fn run_plan(&self, alloc: Global, calls: &[Call]) -> Result<Verdict, Memory>
        requires calls { IsTrue (list_all (is_call self.now) calls.now) }
        requires few { length calls.now < 2 ^ 32 }
        ensures verdict { IfOk result (λ answer. answer ≡ verdict self.now calls.now) }
        ensures plan { IfOk result (λ answer. (answer ≡ Verdict.Reaches) ↔ IsPlan self.now calls.now) }
    {
        let mut state = State::new(alloc);
        state.add_all(self.init().as_slice())?;
        for (i, call) in calls.iter().enumerate() {
            if !run_call(alloc, self, &mut state, call)? {
                return Ok(Verdict::Blocked { index: i as u32 });
            }
        }
        if are_true(alloc, &state, &[], self.goal().as_slice())? {
            Ok(Verdict::Reaches)
        } else {
            Ok(Verdict::Short)
        }
    }
}
