//! Pairs that are known of a task, and its published order under them.

ghost use Rattle.std.specs.Prelude.{◌≡◌, IfOk, IfSome, OnSome};
ghost use Rattle.gt_core.specs.Published.{IsPublished};
ghost use Rattle.gt_core.specs.Reached.{HoldsWherever};

use crate::lines::{Out, keep, put};
use action_order::order::Order;
use action_order::publish::publish;
use containers::memory::Memory;
use gt_core::pairs::Pairs;
use gt_core::task::Task;
use test_kit::kept::are_kept;
use test_kit::large::add_place_pairs;
use test_kit::rooms::add_lamp_pairs;

/// The pairs that are known of the lamps of so many rooms; of no room, none. With them the pairs of the places, for the word `known`.
pub(crate) fn pairs_of(out: &mut Out, task: &Task, rooms: u32, word: &str) -> Result<Pairs, Memory>
    ensures { IfOk result (λ pairs. pairs.facts ≡ task.now.facts) }
{
    let mut pairs = Pairs::empty(out.alloc, task.facts())?;
    keep(out, add_lamp_pairs(rooms, &mut pairs));
    if word == "known" {
        keep(out, add_place_pairs(&mut pairs));
    }
    Ok(pairs)
}

/// The published order under pairs that each action keeps. Where one does not keep them, that is written, and there is none.
pub(crate) fn kept_order(out: &mut Out, task: &Task, pairs: &Pairs) -> Option<Order>
    requires { pairs.now.facts ≡ task.now.facts }
    ensures hold { OnSome result (HoldsWherever task.now pairs.now.clauses) }
    ensures published { IfSome result (λ order. IsPublished task.now pairs.now.clauses order) }
{
    if !are_kept(task, pairs) {
        put(out, "a pair that is not kept\n", &[]);
        return None;
    }
    match publish(out.alloc, task, pairs) {
        Ok(order) => Some(order),
        Err(_) => {
            out.fail();
            None
        }
    }
}
