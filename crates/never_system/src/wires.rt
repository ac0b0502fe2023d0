//! Wires: twice a variable's number where it is true, and one more where it is false.

ghost use Rattle.std.specs.Prelude.{◌≡◌, ◌<◌, ◌≤◌, ◌++◌, OnOk};
ghost use Rattle.gt_core.specs.Literal.{opposite};
ghost use Rattle.never_system.specs.Blif.{numbered};
ghost use Rattle.never_system.specs.Aiger.{wire, wires, bit_wire, needed};

use containers::memory::Memory;
use gt_core::act::Act;

/// The wire that says the contrary.
pub fn opposite(wire: u64) -> u64
    ensures { result ≡ opposite wire }
{
    if wire % 2 == 0 { wire + 1 } else { wire - 1 }
}

/// The wire of a literal: latches come after so many inputs.
#[tactic(auto, unfolding(crate::specs::Aiger::wire))]
pub fn wire(width: u32, lit: u32) -> u64
    ensures { result ≡ wire width lit }
{
    2 * (u64::from(width) + 1) + u64::from(lit)
}

/// Appends the wires of literals.
pub fn push_wires(list: &mut Vec<u64>, width: u32, lits: &[u32]) -> Result<(), Memory>
    ensures { OnOk result (list.new.items ≡ list.old.items ++ wires width lits.now) }
{
    for lit in lits {
        list.push(wire(width, *lit))?;
    }
    Ok(())
}

/// Appends the wire that is true where an input has the bit of a number.
#[tactic(auto, unfolding(crate::specs::Aiger::bit_wire))]
fn push_bit(list: &mut Vec<u64>, number: u32, place: u32) -> Result<(), Memory>
    requires { place < 14 }
    ensures { OnOk result (list.new.items ≡ list.old.items ++ bit_wire number place) }
{
    let input = 2 * (u64::from(place) + 1);
    if (number >> place) % 2 == 0 {
        list.push(input + 1)?;
    } else {
        list.push(input)?;
    }
    Ok(())
}

/// Appends what has to be true for an action to run.
#[tactic(auto, unfolding(crate::specs::Aiger::needed))]
pub fn push_needed(list: &mut Vec<u64>, width: u32, number: u32, act: &Act) -> Result<(), Memory>
    requires { width ≤ 14 }
    ensures { OnOk result (list.new.items ≡ list.old.items ++ needed width number act.now) }
{
    push_bits(list, width, number)?;
    push_wires(list, width, act.pre())?;
    Ok(())
}

/// Appends the wires that are true where the inputs spell a number.
fn push_bits(list: &mut Vec<u64>, width: u32, number: u32) -> Result<(), Memory>
    requires { width ≤ 14 }
    ensures { OnOk result (list.new.items ≡ list.old.items ++ numbered (bit_wire number) width) }
{
    for place in 0..width {
        push_bit(list, number, place)?;
    }
    Ok(())
}
