//! The lines of a ground task and of a published order.
ghost use Rattle.std.specs.Prelude.{◌≡◌, ◌++◌, ◌<◌, map, length, true, OnOk, decimal};
ghost use Rattle.gt_core.specs.Literal.{is_in};
ghost use Rattle.gt_core.specs.Published.{IsPublished, order_of};
ghost use Rattle.grounding_defs.specs.Grounded.{IsGrounded};
ghost use Rattle.pd_model.specs.Text.{atom_text, call_text};
ghost use Rattle.plan_report.specs.Listings.{placed, numbered, ground_text, order_counts, order_text};

use crate::task_lines::{push_count, push_line_start};
use crate::task_names::{push_atom, push_call};
use action_order::order::Order;
use grounder::Grounded;
use gt_core::pairs::Pairs;
use pd_model::{Memory, Pddl};
use report_lines::push_number;

/// Appends the lines of the facts, of which there are so many.
#[tactic(auto, using(crate::proofs::TaskLines::lines_done))]
fn push_facts(p: &Pddl, g: &Grounded, facts: u32, text: &mut Vec<u8>) -> Result<(), Memory>
    requires { facts ≡ length g.now.facts }
    ensures { OnOk result (text.new.items ≡ text.old.items ++ numbered 0 (map (atom_text p.now) g.now.facts)) }
{
    for f in 0..facts {
        push_line_start(f, text)?;
        push_atom(p, g.fact(f), text)?;
        text.extend_from_slice(b"\n")?;
    }
    Ok(())
}

/// Appends the lines of the actions, of which there are so many.
#[tactic(auto, using(crate::proofs::TaskLines::lines_done))]
fn push_actions(p: &Pddl, g: &Grounded, actions: u32, text: &mut Vec<u8>) -> Result<(), Memory>
    requires { actions ≡ length g.now.calls }
    ensures { OnOk result (text.new.items ≡ text.old.items ++ numbered 0 (map (call_text p.now) g.now.calls)) }
{
    for a in 0..actions {
        push_line_start(a, text)?;
        push_call(p, g.call(a), text)?;
        text.extend_from_slice(b"\n")?;
    }
    Ok(())
}

/// Appends the facts and the actions of a ground task, and how many effects have a condition. The only error is want of
/// memory; `text` then holds no more than a part.
pub fn push_ground(p: &Pddl, g: &Grounded, text: &mut Vec<u8>) -> Result<(), Memory>
    requires { IsGrounded p.now g.now }
    ensures { OnOk result (text.new.items ≡ text.old.items ++ ground_text p.now g.now) }
{
    let task = g.task();
    let facts = task.facts();
    let actions = task.acts().len() as u32;
    push_count("facts", facts, text)?;
    push_facts(p, g, facts, text)?;
    push_count("actions", actions, text)?;
    push_actions(p, g, actions, text)?;
    push_count("effects", task.conditional(), text)
}

/// Appends a number after what stands before it.
fn push_after(before: &[u8], number: u64, text: &mut Vec<u8>) -> Result<(), Memory>
    ensures { OnOk result (text.new.items ≡ (text.old.items ++ before.now) ++ decimal number) }
{
    text.extend_from_slice(before)?;
    push_number(text, number)?;
    Ok(())
}

/// Appends the counts of an order of actions.
fn push_counts(actions: u64, components: u64, pairs: u64, text: &mut Vec<u8>) -> Result<(), Memory>
    ensures { OnOk result (text.new.items ≡ text.old.items ++ order_counts actions components pairs) }
{
    push_after(b"; actions ", actions, text)?;
    push_after(b" components ", components, text)?;
    push_after(b" pairs ", pairs, text)?;
    text.extend_from_slice(b"\n")?;
    Ok(())
}

/// Appends an action's component and its call.
fn push_placed(
    p: &Pddl,
    g: &Grounded,
    order: &Order,
    a: u32,
    text: &mut Vec<u8>,
) -> Result<(), Memory>
    requires placed { is_in (order_of order.now) a ≡ true }
    requires action { a < length g.now.calls }
    ensures { OnOk result (text.new.items ≡ text.old.items ++ placed p.now g.now order.now a) }
{
    push_number(text, u64::from(order.component(a)))?;
    text.extend_from_slice(b" ")?;
    push_call(p, g.call(a), text)
}

/// Appends the lines of the actions in published order.
fn push_places(p: &Pddl, g: &Grounded, order: &Order, text: &mut Vec<u8>) -> Result<(), Memory>
    requires { (a : _) → is_in (order_of order.now) a ≡ true → a < length g.now.calls }
    ensures { OnOk result (text.new.items ≡ text.old.items ++ numbered 0 (map (placed p.now g.now order.now) (order_of order.now))) }
{
    for place in 0..order.actions() {
        push_line_start(place, text)?;
        push_placed(p, g, order, order.at(place), text)?;
        text.extend_from_slice(b"\n")?;
    }
    Ok(())
}

/// Appends the actions of a ground task in the order that was published under the known clauses `pairs`, each with its
/// component. The only error is want of memory; `text` then holds no more than a part.
#[tactic(auto, using(crate::proofs::Placed::placed_calls))]
pub fn push_order(
    p: &Pddl,
    g: &Grounded,
    order: &Order,
    pairs: &Pairs,
    text: &mut Vec<u8>,
) -> Result<(), Memory>
    requires grounded { IsGrounded p.now g.now }
    requires published { IsPublished g.now.task pairs.now.clauses order.now }
    ensures { OnOk result (text.new.items ≡ text.old.items ++ order_text p.now g.now order.now (length pairs.now.clauses)) }
{
    push_counts(
        g.task().acts().len() as u64,
        u64::from(order.components()),
        u64::from(pairs.count()),
        text,
    )?;
    push_places(p, g, order, text)
}
