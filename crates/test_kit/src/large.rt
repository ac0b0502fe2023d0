//! Tasks near the limits: each has 2,048 facts, and 16,384 actions where nothing else is said.
//!
//! - `none`: no action takes what another reads.
//! - `ring`: each action adds a fact that the next ones must not have, all round: 2,048 places with 8 actions each.
//! - `conditional`: the same by the conditions of effects, four to an action, so 65,536 in all; 512 places with 32
//!   actions each.
//! - `hand`: 15,876 actions that all need and delete one fact, so that each disables each other one.
//! - `takers`: 800 actions delete a fact that 800 others need.
//! - `moves`: each action moves from one of 512 places to another, 32 from each.
//! - `effects`: one action with 64,262 effects on one fact, each with a condition of its own; half of them add it.

ghost use Rattle.std.specs.Prelude.{◌≡◌, ◌<◌, ◌≤◌};

use crate::actions::{action, plain, when};
use crate::rooms::add_pair;
use containers::memory::Memory;
use gt_core::act::{Act, Acts};
use gt_core::eff::Eff;
use gt_core::limits::{MOST_ACTIONS, MOST_FACTS};
use gt_core::lits::{Bits, Lits};
use gt_core::pairs::Pairs;
use gt_core::task::Task;
use std::alloc::{AllocError, Global};

/// How many facts a task has.
const FACTS: u32 = MOST_FACTS as u32;

/// How many effects of the one action add its fact, and as many delete it.
const HALF_OF_EFFECTS: u32 = 32_131;

/// How many actions the task for a word has.
fn action_count(word: &str) -> u32 {
    match word {
        "hand" => 15_876,
        "takers" => 1600,
        "effects" => 1,
        _ => MOST_ACTIONS as u32,
    }
}

/// The action that adds, for each of four facts that holds, the next one of 512 in a ring.
fn conditional(alloc: Global, number: u32) -> Result<Act, AllocError> {
    let mut effects = Vec::new(alloc);
    for part in 0..4u32 {
        let fact = number % 512 + 512 * part;
        let next = (number % 512 + 1) % 512 + 512 * part;
        effects.push(when(alloc, &[2 * fact], 2 * next)?)?;
    }
    action(alloc, &[], effects)
}

/// The action that moves from a place to another one, both of 512.
fn moving(alloc: Global, number: u32) -> Result<Act, AllocError> {
    let from = number % 512;
    let to = (from + 1 + number / 512 % 32) % 512;
    if from < to {
        plain(alloc, &[2 * from], &[2 * from + 1, 2 * to])
    } else {
        plain(alloc, &[2 * from], &[2 * to, 2 * from + 1])
    }
}

/// Appends so many effects with a literal, each with a condition of two other facts, in the order of their conditions.
fn add_effects(
    alloc: Global,
    lit: u32,
    count: u32,
    effects: &mut Vec<Eff>,
) -> Result<(), AllocError>
    requires { count ≤ 40000 }
{
    for number in 0..count {
        let first = number / 2000 + 1;
        let second = first + 1 + number % 2000;
        effects.push(when(alloc, &[2 * first, 2 * second], lit)?)?;
    }
    Ok(())
}

/// The action with many effects on fact 0.
fn many_effects(alloc: Global) -> Result<Act, AllocError> {
    let mut effects = Vec::new(alloc);
    add_effects(alloc, 0, HALF_OF_EFFECTS, &mut effects)?;
    add_effects(alloc, 1, HALF_OF_EFFECTS, &mut effects)?;
    action(alloc, &[], effects)
}

/// The action with this number of the task for a word.
fn action_of(alloc: Global, word: &str, number: u32) -> Result<Act, AllocError> {
    let place = number % FACTS;
    match word {
        "ring" => plain(alloc, &[2 * place + 1], &[2 * ((place + 1) % FACTS)]),
        "conditional" => conditional(alloc, place),
        "hand" => plain(alloc, &[0], &[1, 2 + 2 * (place % 1024)]),
        "takers" if number < 800 => plain(alloc, &[], &[1]),
        "takers" => plain(alloc, &[0], &[2]),
        "moves" => moving(alloc, number),
        "effects" => many_effects(alloc),
        _ => plain(alloc, &[2 * (place % 1024)], &[2 * (1024 + place % 1024)]),
    }
}

/// All actions of the task for a word.
fn actions(alloc: Global, word: &str) -> Result<Acts, AllocError> {
    let mut acts = Vec::new(alloc);
    for number in 0..action_count(word) {
        acts.push(action_of(alloc, word, number)?)?;
    }
    Ok(Acts::of(acts))
}

/// The task for a word, or none where its parts are not those of a task.
pub fn large(alloc: Global, word: &str) -> Result<Option<Task>, AllocError> {
    let init = Bits::of(vec![in alloc; false; FACTS as usize]?);
    let goal = Lits::of(Vec::new(alloc));
    Ok(Task::try_new(FACTS, init, goal, false, actions(alloc, word)?))
}

/// Adds that a place and a later one of `moves` do not hold together.
fn add_pairs_of(first: u32, pairs: &mut Pairs) -> Result<(), Memory>
    requires { first < 512 }
    ensures { pairs.new.facts ≡ pairs.old.facts }
{
    for second in first + 1..512 {
        add_pair(pairs, 2 * first + 1, 2 * second + 1)?;
    }
    Ok(())
}

/// Adds that no two of the 512 places of `moves` hold together: 130,816 pairs.
pub fn add_place_pairs(pairs: &mut Pairs) -> Result<(), Memory>
    ensures { pairs.new.facts ≡ pairs.old.facts }
{
    for first in 0..512u32 {
        add_pairs_of(first, pairs)?;
    }
    Ok(())
}
