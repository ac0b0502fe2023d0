//! The gates of actions and their effects.

ghost use Rattle.std.specs.Prelude.{◌≡◌, ◌≤◌, OnOk};
ghost use Rattle.never_system.specs.Aiger.{with_effect, with_effects, with_action, with_actions};

use crate::circuit::Circuit;
use crate::wires::{push_needed, push_wires};
use containers::memory::Memory;
use gt_core::act::Act;
use gt_core::eff::Eff;
use gt_core::task::Task;
use std::alloc::Global;

/// An effect is active where its action runs, which a wire says, and its condition holds.
#[tactic(auto, unfolding(crate::specs::Aiger::with_effect))]
fn add_effect(
    alloc: Global,
    circuit: &mut Circuit,
    width: u32,
    run: u64,
    effect: &Eff,
) -> Result<(), Memory>
    ensures { OnOk result (circuit.new ≡ with_effect width run circuit.old effect.now) }
{
    let mut condition = Vec::new(alloc);
    push_wires(&mut condition, width, effect.cond())?;
    let active = circuit.join(run, &condition)?;
    circuit.note(effect.lit(), active)
}

/// All effects of an action.
fn add_effects(
    alloc: Global,
    circuit: &mut Circuit,
    width: u32,
    run: u64,
    effects: &[Eff],
) -> Result<(), Memory>
    ensures { OnOk result (circuit.new ≡ with_effects width run circuit.old effects.now) }
{
    for effect in effects {
        add_effect(alloc, circuit, width, run, effect)?;
    }
    Ok(())
}

/// An action and its effects.
#[tactic(auto, unfolding(crate::specs::Aiger::with_action))]
fn add_act(
    alloc: Global,
    circuit: &mut Circuit,
    width: u32,
    number: u32,
    act: &Act,
) -> Result<(), Memory>
    requires { width ≤ 14 }
    ensures { OnOk result (circuit.new ≡ with_action width number circuit.old act.now) }
{
    let mut needed = Vec::new(alloc);
    push_needed(&mut needed, width, number, act)?;
    let run = circuit.join(1, &needed)?;
    add_effects(alloc, circuit, width, run, act.effects())
}

/// All actions.
pub fn add_acts(alloc: Global, circuit: &mut Circuit, width: u32, task: &Task) -> Result<(), Memory>
    requires { width ≤ 14 }
    ensures { OnOk result (circuit.new ≡ with_actions width 0 circuit.old task.now.actions) }
{
    for number in 0..task.acts().len() as u32 {
        add_act(alloc, circuit, width, number, task.act(number))?;
    }
    Ok(())
}
