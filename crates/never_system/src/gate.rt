//! The text of a gate.

ghost use Rattle.std.specs.Prelude.{◌≡◌, ◌+◌, ◌≤◌, ◌++◌, ◌∷◌, [], length, decimal, OnOk};
ghost use Rattle.never_system.specs.Aiger.{word, last_word, gate};

use containers::memory::Memory;
use itoa::Buffer;

/// Appends a number and a byte; without room for them the text does not get shorter.
fn put_number(text: &mut Vec<u8>, number: u64, last: u8) -> Result<(), Memory>
    ensures put { OnOk result (text.new.items ≡ text.old.items ++ (decimal number ++ last ∷ [])) }
    ensures kept { length text.old.items ≤ length text.new.items }
    ensures longer { OnOk result (length text.old.items + 1 ≤ length text.new.items) }
{
    let mut digits = Buffer::new();
    text.extend_from_slice(digits.format(number).as_bytes())?;
    text.push(last)?;
    Ok(())
}

/// Appends a number and a blank.
#[tactic(auto, unfolding(crate::specs::Aiger::word))]
pub fn put_word(text: &mut Vec<u8>, number: u64) -> Result<(), Memory>
    ensures put { OnOk result (text.new.items ≡ text.old.items ++ word number) }
    ensures kept { length text.old.items ≤ length text.new.items }
    ensures longer { OnOk result (length text.old.items + 1 ≤ length text.new.items) }
{
    put_number(text, number, b' ')
}

/// Appends a number at the end of a line.
#[tactic(auto, unfolding(crate::specs::Aiger::last_word))]
pub fn put_last_word(text: &mut Vec<u8>, number: u64) -> Result<(), Memory>
    ensures put { OnOk result (text.new.items ≡ text.old.items ++ last_word number) }
    ensures kept { length text.old.items ≤ length text.new.items }
    ensures longer { OnOk result (length text.old.items + 1 ≤ length text.new.items) }
{
    put_number(text, number, b'\n')
}

/// Appends the text of a gate. It takes at least three bytes.
#[tactic(auto, unfolding(crate::specs::Aiger::gate))]
pub fn put_gate(text: &mut Vec<u8>, wire: u64, x: u64, y: u64) -> Result<(), Memory>
    ensures put { OnOk result (text.new.items ≡ text.old.items ++ gate wire x y) }
    ensures kept { length text.old.items ≤ length text.new.items }
    ensures longer { OnOk result (length text.old.items + 3 ≤ length text.new.items) }
{
    put_word(text, wire)?;
    put_word(text, x.max(y))?;
    put_last_word(text, x.min(y))?;
    Ok(())
}
