//! The tables and latches of facts.

ghost use Rattle.std.specs.Prelude.{◌≡◌, ◌*◌, ◌<◌, ◌++◌, OnOk};
ghost use Rattle.never_system.specs.Blif.{numbered, maker_names, all_maker_names, maker_zeros, all_maker_zeros, none_line, maker_table, next_names, next_table, fact_tables, latch, reached_table, goal_table};

use crate::names::{put, put_effect_name, put_fact_names, put_name, put_pattern};
use containers::memory::Memory;
use gt_core::eff::Eff;
use gt_core::task::Task;
use std::alloc::Global;

/// Appends the names of the effects of an action with a literal.
fn put_makers(text: &mut Vec<u8>, lit: u32, act: u32, effects: &[Eff]) -> Result<(), Memory>
    ensures { OnOk result (text.new.items ≡ text.old.items ++ maker_names lit act 0 effects.now) }
{
    for (place, effect) in effects.iter().enumerate() {
        if effect.lit() == lit {
            put_effect_name(text, act, place)?;
        }
    }
    Ok(())
}

/// Appends the names of all effects with a literal.
fn put_all_makers(text: &mut Vec<u8>, lit: u32, task: &Task) -> Result<(), Memory>
    ensures { OnOk result (text.new.items ≡ text.old.items ++ all_maker_names lit 0 task.now.actions) }
{
    for number in 0..task.acts().len() as u32 {
        put_makers(text, lit, number, task.act(number).effects())?;
    }
    Ok(())
}

/// Appends a 0 for each effect with a literal.
fn put_zeros(text: &mut Vec<u8>, lit: u32, effects: &[Eff]) -> Result<(), Memory>
    ensures { OnOk result (text.new.items ≡ text.old.items ++ maker_zeros lit effects.now) }
{
    for effect in effects {
        if effect.lit() == lit {
            text.push(b'0')?;
        }
    }
    Ok(())
}

/// The same of all actions.
fn put_all_zeros(text: &mut Vec<u8>, lit: u32, task: &Task) -> Result<(), Memory>
    ensures { OnOk result (text.new.items ≡ text.old.items ++ all_maker_zeros lit task.now.actions) }
{
    for number in 0..task.acts().len() as u32 {
        put_zeros(text, lit, task.act(number).effects())?;
    }
    Ok(())
}

/// Appends the line of a table that is false where no input is true.
#[tactic(auto, unfolding(crate::specs::Blif::none_line))]
fn put_none_line(text: &mut Vec<u8>, zeros: &[u8]) -> Result<(), Memory>
    ensures { OnOk result (text.new.items ≡ text.old.items ++ none_line zeros.now) }
{
    if zeros.is_empty() {
        return Ok(());
    }
    put(text, zeros)?;
    put(text, b" 0\n".as_slice())?;
    Ok(())
}

/// Appends the table that says when an effect with a literal is active.
#[tactic(auto, unfolding(crate::specs::Blif::maker_table))]
fn put_maker_table(
    alloc: Global,
    text: &mut Vec<u8>,
    letter: u8,
    lit: u32,
    task: &Task,
) -> Result<(), Memory>
    ensures { OnOk result (text.new.items ≡ text.old.items ++ maker_table task.now letter lit) }
{
    put(text, b".names".as_slice())?;
    put_all_makers(text, lit, task)?;
    put_name(text, letter, lit / 2)?;
    put(text, b"\n".as_slice())?;
    let mut zeros = Vec::new(alloc);
    put_all_zeros(&mut zeros, lit, task)?;
    put_none_line(text, &zeros)?;
    Ok(())
}

/// Appends what the next value of a fact stands on, and that value.
#[tactic(auto, unfolding(crate::specs::Blif::next_names))]
fn put_next_names(text: &mut Vec<u8>, fact: u32) -> Result<(), Memory>
    ensures { OnOk result (text.new.items ≡ text.old.items ++ next_names fact) }
{
    put_name(text, b'v', fact)?;
    put_name(text, b'g', fact)?;
    put_name(text, b'd', fact)?;
    put_name(text, b'n', fact)?;
    Ok(())
}

/// Appends the table that says when a fact is true next.
#[tactic(auto, unfolding(crate::specs::Blif::next_table))]
fn put_next_table(text: &mut Vec<u8>, fact: u32) -> Result<(), Memory>
    ensures { OnOk result (text.new.items ≡ text.old.items ++ next_table fact) }
{
    put(text, b".names".as_slice())?;
    put_next_names(text, fact)?;
    put(text, b"\n-1- 1\n1-0 1\n".as_slice())?;
    Ok(())
}

/// Appends the tables of a fact.
#[tactic(auto, unfolding(crate::specs::Blif::fact_tables))]
fn put_fact(alloc: Global, text: &mut Vec<u8>, fact: u32, task: &Task) -> Result<(), Memory>
    requires { fact < task.now.facts }
    ensures { OnOk result (text.new.items ≡ text.old.items ++ fact_tables task.now fact) }
{
    // For the proof: the task is lawful, so literals have codes.
    let _facts = task.facts();
    put_maker_table(alloc, text, b'g', 2 * fact, task)?;
    put_maker_table(alloc, text, b'd', 2 * fact + 1, task)?;
    put_next_table(text, fact)?;
    Ok(())
}

/// Appends the tables of all facts.
pub fn put_facts(alloc: Global, text: &mut Vec<u8>, task: &Task) -> Result<(), Memory>
    ensures { OnOk result (text.new.items ≡ text.old.items ++ numbered (fact_tables task.now) task.now.facts) }
{
    for fact in 0..task.facts() {
        put_fact(alloc, text, fact, task)?;
    }
    Ok(())
}

/// Appends the latch of a fact.
#[tactic(auto, unfolding(crate::specs::Blif::latch))]
fn put_latch(text: &mut Vec<u8>, fact: u32, task: &Task) -> Result<(), Memory>
    requires { fact < task.now.facts }
    ensures { OnOk result (text.new.items ≡ text.old.items ++ latch task.now fact) }
{
    // For the proof: the task is lawful, so each fact has an initial value and a code.
    let _facts = task.facts();
    put(text, b".latch".as_slice())?;
    put_name(text, b'n', fact)?;
    put_name(text, b'v', fact)?;
    if task.holds(task.init(), 2 * fact) {
        put(text, b" 1\n".as_slice())?;
    } else {
        put(text, b" 0\n".as_slice())?;
    }
    Ok(())
}

/// Appends the latches of all facts.
pub fn put_latches(text: &mut Vec<u8>, task: &Task) -> Result<(), Memory>
    ensures { OnOk result (text.new.items ≡ text.old.items ++ numbered (latch task.now) task.now.facts) }
{
    for fact in 0..task.facts() {
        put_latch(text, fact, task)?;
    }
    Ok(())
}

/// Appends the table that says when literals hold all.
#[tactic(auto, unfolding(crate::specs::Blif::reached_table))]
fn put_reached(text: &mut Vec<u8>, goal: &[u32]) -> Result<(), Memory>
    ensures { OnOk result (text.new.items ≡ text.old.items ++ reached_table goal.now) }
{
    put(text, b".names".as_slice())?;
    put_fact_names(text, goal)?;
    put(text, b" goal\n".as_slice())?;
    put_pattern(text, goal)?;
    put(text, b" 1\n".as_slice())?;
    Ok(())
}

/// Appends the table that says when the goal holds.
#[tactic(auto, unfolding(crate::specs::Blif::goal_table))]
pub fn put_goal(text: &mut Vec<u8>, task: &Task) -> Result<(), Memory>
    ensures { OnOk result (text.new.items ≡ text.old.items ++ goal_table task.now) }
{
    if task.hopeless() {
        put(text, b".names goal\n".as_slice())?;
        return Ok(());
    }
    put_reached(text, task.goal())?;
    Ok(())
}
