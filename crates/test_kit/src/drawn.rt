//! Small tasks drawn from numbers.

ghost use Rattle.std.specs.Prelude.{◌≤◌};
ghost use Rattle.gt_core.specs.Limits.{most_facts};

use crate::dice::Dice;
use gt_core::act::{Act, Acts};
use gt_core::eff::{Eff, Effs};
use gt_core::lits::{Bits, Lits};
use gt_core::task::Task;
use std::alloc::{AllocError, Global};

/// Of each fact one of its literals, or none: the first with one side of `sides`, the second with another.
fn literals(alloc: Global, dice: &mut Dice, facts: u32, sides: u32) -> Result<Lits, AllocError>
    requires facts { facts ≤ most_facts }
    requires sides { 2 ≤ sides }
{
    let mut lits = Vec::new(alloc);
    for f in 0..facts {
        let side = dice.roll(sides);
        if side < 2 {
            lits.push(2 * f + side)?;
        }
    }
    Ok(Lits::of(lits))
}

/// For each literal no effect, one without condition, one with, or both.
fn effects(alloc: Global, dice: &mut Dice, facts: u32) -> Result<Effs, AllocError>
    requires { facts ≤ most_facts }
{
    let mut effects = Vec::new(alloc);
    for lit in 0..2 * facts {
        let side = dice.roll(6);
        if side < 2 {
            effects.push(Eff::sure(lit))?;
        }
        if side == 1 || side == 2 {
            let mut condition = literals(alloc, dice, facts, 4)?.into_vec();
            if condition.is_empty() {
                condition.push(dice.roll(2))?;
            }
            effects.push(Eff::new(alloc, Lits::of(condition), lit)?)?;
        }
    }
    Ok(Effs::of(effects))
}

/// The values of the facts at first.
fn values(alloc: Global, dice: &mut Dice, facts: u32) -> Result<Bits, AllocError> {
    let mut values = Vec::new(alloc);
    for _ in 0..facts {
        values.push(dice.roll(2) == 1)?;
    }
    Ok(Bits::of(values))
}

/// A task of one to four facts and one to four actions.
pub fn task(alloc: Global, dice: &mut Dice) -> Result<Option<Task>, AllocError> {
    let facts = 1 + dice.roll(4);
    let init = values(alloc, dice, facts)?;
    let goal = literals(alloc, dice, facts, 4)?;
    let hopeless = dice.roll(8) == 0;
    let mut acts = Vec::new(alloc);
    for _ in 0..1 + dice.roll(4) {
        let pre = literals(alloc, dice, facts, 4)?;
        let effects = effects(alloc, dice, facts)?;
        acts.push(Act::new(pre, effects))?;
    }
    Ok(Task::try_new(facts, init, goal, hopeless, Acts::of(acts)))
}
