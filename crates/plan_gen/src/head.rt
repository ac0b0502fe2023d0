// The head of a problem.
ghost use Rattle.std.specs.Prelude.{◌≡◌, ◌++◌, OnOk};
ghost use Rattle.plan_gen.specs.Head.{names, objects, head};

use crate::Memory;
use crate::text::{put, put_number, put_numbered};

// Puts the names of the problem and of its domain.
fn put_names(text: &mut Vec<u8>, name: &str, number: u32) -> Result<(), Memory>
    ensures { OnOk result (text.new.items ≡ text.old.items ++ names name.now number) }
{
    put(text, "(define (problem ")?;
    put(text, name)?;
    put(text, "-")?;
    put_number(text, number)?;
    put(text, ")\n(:domain ")?;
    put(text, name)?;
    put(text, ")\n")?;
    Ok(())
}

// Puts the objects.
fn put_objects(
    text: &mut Vec<u8>,
    first: &str,
    object: &str,
    last: &str,
    number: u32,
) -> Result<(), Memory>
    ensures { OnOk result (text.new.items ≡ text.old.items ++ objects first.now object.now last.now number) }
{
    put(text, "(:objects ")?;
    put(text, first)?;
    put_numbered(text, object, "", number)?;
    put(text, last)?;
    put(text, ")\n")?;
    Ok(())
}

// Puts a problem's head: the domain's name, and the objects, `number` of which are numbered.
pub(crate) fn put_head(
    text: &mut Vec<u8>,
    name: &str,
    first: &str,
    object: &str,
    last: &str,
    number: u32,
) -> Result<(), Memory>
    ensures { OnOk result (text.new.items ≡ text.old.items ++ head name.now first.now object.now last.now number) }
{
    put_names(text, name, number)?;
    put_objects(text, first, object, last, number)
}
