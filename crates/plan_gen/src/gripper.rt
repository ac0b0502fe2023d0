ghost use Rattle.std.specs.Prelude.{◌≡◌, ◌++◌, IfOk, OnOk};
ghost use Rattle.plan_gen.specs.Gripper.{gripper_init, gripper_goal, gripper_problem};

use crate::head::put_head;
use crate::text::{put, put_numbered};
use crate::{Memory, Text};
use std::alloc::Global;

// The domain of the gripper.
pub(crate) const DOMAIN: &str = "(define (domain gripper)
(:predicates (room ?r) (ball ?b) (gripper ?g) (at-robby ?r) (at ?b ?r) (free ?g) (carry ?o ?g))
(:action move :parameters (?from ?to)
:precondition (and (room ?from) (room ?to) (at-robby ?from))
:effect (and (at-robby ?to) (not (at-robby ?from))))
(:action pick :parameters (?obj ?room ?gripper)
:precondition (and (ball ?obj) (room ?room) (gripper ?gripper) (at ?obj ?room) (at-robby ?room) (free ?gripper))
:effect (and (carry ?obj ?gripper) (not (at ?obj ?room)) (not (free ?gripper))))
(:action drop :parameters (?obj ?room ?gripper)
:precondition (and (ball ?obj) (room ?room) (gripper ?gripper) (carry ?obj ?gripper) (at-robby ?room))
:effect (and (at ?obj ?room) (free ?gripper) (not (carry ?obj ?gripper)))))
";

// The problem of the gripper with `number` balls.
pub(crate) fn problem(alloc: Global, number: u32) -> Result<Text, Memory>
    ensures { IfOk result (λ text. text ≡ gripper_problem number) }
{
    let mut text = Vec::new(alloc);
    put_head(
        &mut text,
        "gripper",
        "rooma roomb",
        " ball",
        " left right",
        number,
    )?;
    put_init(&mut text, number)?;
    put_goal(&mut text, number)?;
    Ok(Text::of(text))
}

// Puts the initial state.
fn put_init(text: &mut Vec<u8>, number: u32) -> Result<(), Memory>
    ensures { OnOk result (text.new.items ≡ text.old.items ++ gripper_init number) }
{
    put(text, "(:init (room rooma) (room roomb)")?;
    put_numbered(text, " (ball ball", ")", number)?;
    put(text, " (gripper left) (gripper right) (at-robby rooma)")?;
    put_numbered(text, " (at ball", " rooma)", number)?;
    put(text, " (free left) (free right))\n")?;
    Ok(())
}

// Puts the goal and the end of the problem.
fn put_goal(text: &mut Vec<u8>, number: u32) -> Result<(), Memory>
    ensures { OnOk result (text.new.items ≡ text.old.items ++ gripper_goal number) }
{
    put(text, "(:goal (and")?;
    put_numbered(text, " (at ball", " roomb)", number)?;
    put(text, ")))\n")?;
    Ok(())
}
