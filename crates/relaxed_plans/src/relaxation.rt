//! The operators of a task where no literal is lost.

use containers::equal::empty_lists;
use containers::memory::Memory;
use containers::{FlatLists, ListOf};
use gt_core::act::Act;
use gt_core::task::Task;
use std::alloc::Global;

/// For each operator its action, the literals that it needs and those that it makes, and for each literal the operators that need it:
/// one for the effects of an action without a condition, and one for each other effect. The literals of the goal.
#[derive(Drop)]
pub struct Relaxation {
    pub(crate) acts: Vec<u32>,
    pub(crate) needs: FlatLists<u32>,
    pub(crate) makes: FlatLists<u32>,
    pub(crate) users: Vec<ListOf<u32>>,
    pub(crate) goal: Vec<u32>,
}

/// Notes an operator at each literal that it needs.
fn note_user(op: u32, needs: &[u32], users: &mut [ListOf<u32>]) -> Result<(), Memory> {
    for lit in needs {
        if let Some(list) = users.get_mut(*lit as usize) {
            list.push(op)?;
        }
    }
    Ok(())
}

/// Notes each operator at each literal that it needs.
fn note_users(needs: &FlatLists<u32>, users: &mut [ListOf<u32>]) -> Result<(), Memory> {
    for op in 0..needs.len() {
        if op < 4_294_967_295 {
            note_user(op as u32, needs.at(op), users)?;
        }
    }
    Ok(())
}

impl Relaxation {
    /// The operators of a task.
    pub fn new(alloc: Global, task: &Task) -> Result<Relaxation, Memory> {
        let mut all = Relaxation {
            acts: Vec::new(alloc),
            needs: FlatLists::new(alloc),
            makes: FlatLists::new(alloc),
            users: empty_lists(alloc, 2 * task.facts() as usize)?,
            goal: Vec::from_slice(alloc, task.goal())?,
        };
        for number in 0..task.acts().len() {
            all.add_action(alloc, number as u32, &task.acts()[number])?;
        }
        note_users(&all.needs, &mut all.users)?;
        Ok(all)
    }

    /// Adds the operators of an action.
    fn add_action(&mut self, alloc: Global, number: u32, act: &Act) -> Result<(), Memory> {
        let mut sure = Vec::new(alloc);
        for effect in act.effects() {
            if effect.cond().is_empty() {
                sure.push(effect.lit())?;
            } else {
                self.acts.push(number)?;
                self.needs.push_joined(act.pre(), effect.cond())?;
                self.makes.push(&[effect.lit()])?;
            }
        }
        self.acts.push(number)?;
        self.needs.push(act.pre())?;
        self.makes.push(&sure)?;
        Ok(())
    }
}
