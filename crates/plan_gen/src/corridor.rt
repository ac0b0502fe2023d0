ghost use Rattle.std.specs.Prelude.{◌≡◌, ◌++◌, IfOk, OnOk};
ghost use Rattle.plan_gen.specs.Corridor.{corridor_problem, door, doors};

use crate::head::put_head;
use crate::text::{put, put_number};
use crate::{Memory, Text};
use std::alloc::Global;

// The domain of a corridor.
pub(crate) const DOMAIN: &str = "(define (domain corridor)
(:predicates (in ?r) (door ?a ?b))
(:action walk :parameters (?a ?b)
:precondition (and (in ?a) (door ?a ?b))
:effect (and (in ?b) (not (in ?a)))))
";

// The problem of a corridor whose last room is `number`.
pub(crate) fn problem(alloc: Global, number: u32) -> Result<Text, Memory>
    ensures { IfOk result (λ text. text ≡ corridor_problem number) }
{
    let mut text = Vec::new(alloc);
    put_head(&mut text, "corridor", "r0", " r", "", number)?;
    put(&mut text, "(:init (in r0)")?;
    put_doors(&mut text, number)?;
    put(&mut text, ")\n")?;
    put(&mut text, "(:goal (in r")?;
    put_number(&mut text, number)?;
    put(&mut text, ")))\n")?;
    Ok(Text::of(text))
}

// Puts the doors between each of the first `count` rooms and the next room.
fn put_doors(text: &mut Vec<u8>, count: u32) -> Result<(), Memory>
    ensures { OnOk result (text.new.items ≡ text.old.items ++ doors count) }
{
    for room in 0..count {
        put_door(text, room, room + 1)?;
        put_door(text, room + 1, room)?;
    }
    Ok(())
}

// Puts a door from the room of one number to the room of another.
fn put_door(text: &mut Vec<u8>, from: u32, to: u32) -> Result<(), Memory>
    ensures { OnOk result (text.new.items ≡ text.old.items ++ door from to) }
{
    put(text, " (door r")?;
    put_number(text, from)?;
    put(text, " r")?;
    put_number(text, to)?;
    put(text, ")")
}
