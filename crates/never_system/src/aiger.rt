//! The text of a circuit.

ghost use Rattle.std.specs.Prelude.{◌≡◌, ◌≤◌, ◌++◌, IfOk, OnOk};
ghost use Rattle.never_system.specs.Blif.{numbered, width_of};
ghost use Rattle.never_system.specs.Aiger.{circuit_of, with_goal, goal_wire, first_line, input_line, symbol, symbols, circuit_text, aiger};

use crate::blif::width_of;
use crate::circuit::Circuit;
use crate::circuit_acts::add_acts;
use crate::circuit_facts::add_facts;
use crate::gate::{put_last_word, put_word};
use crate::names::{put, put_name};
use crate::wires::push_wires;
use containers::memory::Memory;
use gt_core::task::Task;
use report_lines::push_number;
use std::alloc::Global;

/// The circuit of a task but for its goal.
#[tactic(auto, unfolding(crate::specs::Aiger::circuit_of))]
fn circuit_of(alloc: Global, width: u32, task: &Task) -> Result<Circuit, Memory>
    requires width { width ≡ width_of task.now }
    requires few { width ≤ 14 }
    ensures { IfOk result (λ circuit. circuit ≡ circuit_of task.now) }
{
    let mut circuit = Circuit::new(alloc, u64::from(width) + u64::from(task.facts()));
    add_acts(alloc, &mut circuit, width, task)?;
    add_facts(alloc, &mut circuit, task, width)?;
    Ok(circuit)
}

/// Gates that say that the goal holds; their wire.
#[tactic(auto, unfolding(crate::specs::Aiger::with_goal, crate::specs::Aiger::goal_wire))]
fn add_goal(alloc: Global, circuit: &mut Circuit, width: u32, task: &Task) -> Result<u64, Memory>
    requires { width ≡ width_of task.now }
    ensures gates { OnOk result (circuit.new ≡ with_goal task.now circuit.old) }
    ensures wire { IfOk result (λ w. w ≡ goal_wire task.now circuit.old) }
{
    if task.hopeless() {
        return Ok(0);
    }
    let mut goal = Vec::new(alloc);
    push_wires(&mut goal, width, task.goal())?;
    circuit.join(1, &goal)
}

/// Appends the first line.
#[tactic(auto, unfolding(crate::specs::Aiger::first_line))]
fn put_first_line(
    text: &mut Vec<u8>,
    width: u32,
    facts: u32,
    circuit: &Circuit,
) -> Result<(), Memory>
    ensures { OnOk result (text.new.items ≡ text.old.items ++ first_line width facts circuit.now) }
{
    put(text, b"aag ".as_slice())?;
    put_word(text, circuit.variables())?;
    put_word(text, u64::from(width))?;
    put_word(text, u64::from(facts))?;
    put(text, b"0 ".as_slice())?;
    put_word(text, circuit.count())?;
    put(text, b"1\n".as_slice())?;
    Ok(())
}

/// Appends the line of an input.
#[tactic(auto, unfolding(crate::specs::Aiger::input_line))]
fn put_input(text: &mut Vec<u8>, bit: u32) -> Result<(), Memory>
    ensures { OnOk result (text.new.items ≡ text.old.items ++ input_line bit) }
{
    put_last_word(text, 2 * (u64::from(bit) + 1))
}

/// Appends the lines of so many inputs.
fn put_inputs(text: &mut Vec<u8>, width: u32) -> Result<(), Memory>
    ensures { OnOk result (text.new.items ≡ text.old.items ++ numbered input_line width) }
{
    for bit in 0..width {
        put_input(text, bit)?;
    }
    Ok(())
}

/// Appends the line of the table of names about an input or a latch.
#[tactic(auto, unfolding(crate::specs::Aiger::symbol))]
fn put_symbol(text: &mut Vec<u8>, letter: u8, named: u8, number: u32) -> Result<(), Memory>
    ensures { OnOk result (text.new.items ≡ text.old.items ++ symbol letter named number) }
{
    text.push(letter)?;
    push_number(text, u64::from(number))?;
    put_name(text, named, number)?;
    text.push(b'\n')?;
    Ok(())
}

/// Appends so many such lines.
fn put_all_symbols(text: &mut Vec<u8>, letter: u8, named: u8, count: u32) -> Result<(), Memory>
    ensures { OnOk result (text.new.items ≡ text.old.items ++ numbered (symbol letter named) count) }
{
    for number in 0..count {
        put_symbol(text, letter, named, number)?;
    }
    Ok(())
}

/// Appends the table of names.
#[tactic(auto, unfolding(crate::specs::Aiger::symbols))]
fn put_symbols(text: &mut Vec<u8>, width: u32, facts: u32) -> Result<(), Memory>
    ensures { OnOk result (text.new.items ≡ text.old.items ++ symbols width facts) }
{
    put_all_symbols(text, b'i', b'b', width)?;
    put_all_symbols(text, b'l', b'v', facts)?;
    put(text, b"b0 goal\n".as_slice())?;
    Ok(())
}

/// Appends the text of a circuit whose bad states are those where a wire is true.
#[tactic(auto, unfolding(crate::specs::Aiger::circuit_text))]
fn put_circuit(
    text: &mut Vec<u8>,
    width: u32,
    facts: u32,
    goal: u64,
    circuit: &Circuit,
) -> Result<(), Memory>
    ensures { OnOk result (text.new.items ≡ text.old.items ++ circuit_text width facts goal circuit.now) }
{
    put_first_line(text, width, facts, circuit)?;
    put_inputs(text, width)?;
    put(text, circuit.latches())?;
    put_last_word(text, goal)?;
    put(text, circuit.gates())?;
    put_symbols(text, width, facts)?;
    Ok(())
}

/// Appends a task as a transition system.
#[tactic(auto, unfolding(crate::specs::Aiger::aiger))]
pub fn put_aiger(alloc: Global, text: &mut Vec<u8>, task: &Task) -> Result<(), Memory>
    ensures { OnOk result (text.new.items ≡ text.old.items ++ aiger task.now) }
{
    let width = width_of(task);
    let mut circuit = circuit_of(alloc, width, task)?;
    let goal = add_goal(alloc, &mut circuit, width, task)?;
    put_circuit(text, width, task.facts(), goal, &circuit)
}
