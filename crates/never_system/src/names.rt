//! Names in the text, and what a line of a table asks for.

ghost use Rattle.std.specs.Prelude.{◌≡◌, ◌<◌, ◌++◌, OnOk};
ghost use Rattle.never_system.specs.Blif.{name, place_name, fact_names, pattern};

use containers::memory::Memory;
use report_lines::push_number;

/// Appends bytes.
pub fn put(text: &mut Vec<u8>, bytes: &[u8]) -> Result<(), Memory>
    ensures { OnOk result (text.new.items ≡ text.old.items ++ bytes.now) }
{
    text.extend_from_slice(bytes)?;
    Ok(())
}

/// Appends a name: a blank, a letter, and a number and one.
#[tactic(auto, unfolding(crate::specs::Blif::name))]
pub fn put_name(text: &mut Vec<u8>, letter: u8, number: u32) -> Result<(), Memory>
    ensures { OnOk result (text.new.items ≡ text.old.items ++ name letter number) }
{
    text.push(b' ')?;
    text.push(letter)?;
    push_number(text, u64::from(number) + 1)?;
    Ok(())
}

/// Appends the name of an effect of an action.
#[tactic(auto, unfolding(crate::specs::Blif::place_name))]
pub fn put_effect_name(text: &mut Vec<u8>, act: u32, place: usize) -> Result<(), Memory>
    requires { place < 18446744073709551615 }
    ensures { OnOk result (text.new.items ≡ text.old.items ++ place_name act place) }
{
    put_name(text, b'e', act)?;
    text.push(b'_')?;
    push_number(text, place as u64 + 1)?;
    Ok(())
}

/// Appends the names of the facts of literals.
pub fn put_fact_names(text: &mut Vec<u8>, lits: &[u32]) -> Result<(), Memory>
    ensures { OnOk result (text.new.items ≡ text.old.items ++ fact_names lits.now) }
{
    for lit in lits {
        put_name(text, b'v', *lit / 2)?;
    }
    Ok(())
}

/// Appends what literals ask for: 1 where a fact is true, 0 where it is false.
pub fn put_pattern(text: &mut Vec<u8>, lits: &[u32]) -> Result<(), Memory>
    ensures { OnOk result (text.new.items ≡ text.old.items ++ pattern lits.now) }
{
    for lit in lits {
        text.push(if *lit % 2 == 0 { b'1' } else { b'0' })?;
    }
    Ok(())
}
