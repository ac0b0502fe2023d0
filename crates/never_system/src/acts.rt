//! The tables of actions and their effects.

ghost use Rattle.std.specs.Prelude.{◌≡◌, ◌<◌, ◌≤◌, ◌++◌, OnOk};
ghost use Rattle.never_system.specs.Blif.{bit_names, bit, bits, action_table, effect_table, effect_tables, action_tables};

use crate::names::{put, put_effect_name, put_fact_names, put_name, put_pattern};
use containers::memory::Memory;
use gt_core::act::Act;
use gt_core::eff::Eff;
use gt_core::task::Task;

/// Appends the names of so many inputs.
pub fn put_bit_names(text: &mut Vec<u8>, width: u32) -> Result<(), Memory>
    ensures { OnOk result (text.new.items ≡ text.old.items ++ bit_names width) }
{
    for bit in 0..width {
        put_name(text, b'b', bit)?;
    }
    Ok(())
}

/// Appends a bit of a number.
#[tactic(auto, unfolding(crate::specs::Blif::bit))]
fn put_bit(text: &mut Vec<u8>, number: u32, place: u32) -> Result<(), Memory>
    requires { place < 14 }
    ensures { OnOk result (text.new.items ≡ text.old.items ++ bit number place) }
{
    if (number >> place) % 2 == 0 {
        text.push(b'0')?;
    } else {
        text.push(b'1')?;
    }
    Ok(())
}

/// Appends so many bits of a number, the lowest first.
fn put_bits(text: &mut Vec<u8>, width: u32, number: u32) -> Result<(), Memory>
    requires { width ≤ 14 }
    ensures { OnOk result (text.new.items ≡ text.old.items ++ bits width number) }
{
    for place in 0..width {
        put_bit(text, number, place)?;
    }
    Ok(())
}

/// Appends the table that says when an action runs.
#[tactic(auto, unfolding(crate::specs::Blif::action_table))]
fn put_action(text: &mut Vec<u8>, width: u32, number: u32, act: &Act) -> Result<(), Memory>
    requires { width ≤ 14 }
    ensures { OnOk result (text.new.items ≡ text.old.items ++ action_table width number act.now) }
{
    put(text, b".names".as_slice())?;
    put_bit_names(text, width)?;
    put_fact_names(text, act.pre())?;
    put_name(text, b'a', number)?;
    put(text, b"\n".as_slice())?;
    put_bits(text, width, number)?;
    put_pattern(text, act.pre())?;
    put(text, b" 1\n".as_slice())?;
    Ok(())
}

/// Appends the table that says when an effect of an action is active.
#[tactic(auto, unfolding(crate::specs::Blif::effect_table))]
fn put_effect(text: &mut Vec<u8>, act: u32, place: usize, effect: &Eff) -> Result<(), Memory>
    requires { place < 18446744073709551615 }
    ensures { OnOk result (text.new.items ≡ text.old.items ++ effect_table act place effect.now) }
{
    put(text, b".names".as_slice())?;
    put_name(text, b'a', act)?;
    put_fact_names(text, effect.cond())?;
    put_effect_name(text, act, place)?;
    put(text, b"\n1".as_slice())?;
    put_pattern(text, effect.cond())?;
    put(text, b" 1\n".as_slice())?;
    Ok(())
}

/// Appends the tables of the effects of an action.
fn put_effects(text: &mut Vec<u8>, act: u32, effects: &[Eff]) -> Result<(), Memory>
    ensures { OnOk result (text.new.items ≡ text.old.items ++ effect_tables act 0 effects.now) }
{
    for (place, effect) in effects.iter().enumerate() {
        put_effect(text, act, place, effect)?;
    }
    Ok(())
}

/// Appends the tables of the actions and their effects.
pub fn put_acts(text: &mut Vec<u8>, width: u32, task: &Task) -> Result<(), Memory>
    requires { width ≤ 14 }
    ensures { OnOk result (text.new.items ≡ text.old.items ++ action_tables width 0 task.now.actions) }
{
    for number in 0..task.acts().len() as u32 {
        let act = task.act(number);
        put_action(text, width, number, act)?;
        put_effects(text, number, act.effects())?;
    }
    Ok(())
}
