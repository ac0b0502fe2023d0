//! The gates of facts, and their latches.

ghost use Rattle.std.specs.Prelude.{◌≡◌, ◌<◌, ◌++◌, IfOk, OnOk};
ghost use Rattle.never_system.specs.Aiger.{latch_line, with_lost, lost, with_fact, with_facts};

use crate::circuit::Circuit;
use crate::gate::put_word;
use crate::names::put;
use crate::wires::{opposite, wire};
use containers::memory::Memory;
use gt_core::task::Task;
use std::alloc::Global;

/// Appends the line of a latch.
#[tactic(auto, unfolding(crate::specs::Aiger::latch_line))]
fn put_latch_line(
    text: &mut Vec<u8>,
    task: &Task,
    width: u32,
    fact: u32,
    next: u64,
) -> Result<(), Memory>
    requires { fact < task.now.facts }
    ensures { OnOk result (text.new.items ≡ text.old.items ++ latch_line task.now width fact next) }
{
    // For the proof: the task is lawful, so each fact has an initial value and a code.
    let _facts = task.facts();
    put_word(text, wire(width, 2 * fact))?;
    put_word(text, next)?;
    if task.holds(task.init(), 2 * fact) {
        put(text, b"1\n".as_slice())?;
    } else {
        put(text, b"0\n".as_slice())?;
    }
    Ok(())
}

/// Gates that say that a fact is false next; their wire.
#[tactic(auto, unfolding(crate::specs::Aiger::with_lost, crate::specs::Aiger::lost, crate::specs::Aiger::with_kept, crate::specs::Aiger::kept))]
fn add_lost(alloc: Global, circuit: &mut Circuit, width: u32, fact: u32) -> Result<u64, Memory>
    requires { fact < 1073741824 }
    ensures gates { OnOk result (circuit.new ≡ with_lost width fact circuit.old) }
    ensures wire { IfOk result (λ w. w ≡ lost width fact circuit.old) }
{
    let undeleted = circuit.unmade(alloc, 2 * fact + 1)?;
    let unadded = circuit.unmade(alloc, 2 * fact)?;
    let kept = circuit.join(wire(width, 2 * fact), &undeleted)?;
    circuit.join(opposite(kept), &unadded)
}

/// A fact: the gates of its next value, and its latch.
#[tactic(auto, unfolding(crate::specs::Aiger::with_fact))]
fn add_fact(
    alloc: Global,
    circuit: &mut Circuit,
    task: &Task,
    width: u32,
    fact: u32,
) -> Result<(), Memory>
    requires { fact < task.now.facts }
    ensures { OnOk result (circuit.new ≡ with_fact task.now width fact circuit.old) }
{
    // For the proof: the task is lawful, so literals have codes.
    let _facts = task.facts();
    let lost = add_lost(alloc, circuit, width, fact)?;
    let mut line = Vec::new(alloc);
    put_latch_line(&mut line, task, width, fact, opposite(lost))?;
    circuit.latch(&line)
}

/// All facts.
pub fn add_facts(
    alloc: Global,
    circuit: &mut Circuit,
    task: &Task,
    width: u32,
) -> Result<(), Memory>
    ensures { OnOk result (circuit.new ≡ with_facts task.now width task.now.facts 0 circuit.old) }
{
    for fact in 0..task.facts() {
        add_fact(alloc, circuit, task, width, fact)?;
    }
    Ok(())
}
