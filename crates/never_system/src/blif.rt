//! The text.

ghost use Rattle.std.specs.Prelude.{◌≡◌, ◌≤◌, ◌++◌, OnOk};
ghost use Rattle.never_system.specs.Blif.{width_from, width_of, head, blif};

use crate::acts::{put_acts, put_bit_names};
use crate::facts::{put_facts, put_goal, put_latches};
use crate::names::put;
use containers::memory::Memory;
use gt_core::task::Task;
use std::alloc::Global;

/// How many bits the number of an action takes.
pub(crate) fn width_of(task: &Task) -> u32
    ensures is { result ≡ width_of task.now }
    ensures few { result ≤ 14 }
{
    let count = task.acts().len() as u32;
    for width in 0..14 {
        if count <= 1 << width {
            return width;
        }
    }
    14
}

/// Appends what stands before the tables.
#[tactic(auto, unfolding(crate::specs::Blif::head))]
fn put_head(text: &mut Vec<u8>, width: u32, task: &Task) -> Result<(), Memory>
    requires { width ≡ width_of task.now }
    ensures { OnOk result (text.new.items ≡ text.old.items ++ head task.now) }
{
    put(text, b".model task\n.inputs".as_slice())?;
    put_bit_names(text, width)?;
    put(text, b"\n.outputs goal\n".as_slice())?;
    put_latches(text, task)?;
    Ok(())
}

/// Appends a task as a transition system.
#[tactic(auto, unfolding(crate::specs::Blif::blif))]
pub fn put_blif(alloc: Global, text: &mut Vec<u8>, task: &Task) -> Result<(), Memory>
    ensures { OnOk result (text.new.items ≡ text.old.items ++ blif task.now) }
{
    let width = width_of(task);
    put_head(text, width, task)?;
    put_acts(text, width, task)?;
    put_facts(alloc, text, task)?;
    put_goal(text, task)?;
    put(text, b".end\n".as_slice())?;
    Ok(())
}
