ghost use Rattle.std.specs.Prelude.{◌≡◌, ◌++◌, OnOk, decimal};
ghost use Rattle.plan_gen.specs.Numbered.{numbered};

use containers::ListOf;
pub use containers::memory::Memory;
use itoa::Buffer;

/// The bytes of a text. Contracts see the list of them.
pub type Text = ListOf<u8>;

// Puts a piece at the end.
pub(crate) fn put(text: &mut Vec<u8>, piece: &str) -> Result<(), Memory>
    ensures { OnOk result (text.new.items ≡ text.old.items ++ piece.now) }
{
    text.extend_from_slice(piece.as_bytes())?;
    Ok(())
}

// Puts a number, in decimal.
pub(crate) fn put_number(text: &mut Vec<u8>, number: u32) -> Result<(), Memory>
    ensures { OnOk result (text.new.items ≡ text.old.items ++ decimal number) }
{
    put(text, Buffer::new().format(number))
}

// Puts the numbers from 1 to `count`, each between the same two pieces.
pub(crate) fn put_numbered(
    text: &mut Vec<u8>,
    before: &str,
    after: &str,
    count: u32,
) -> Result<(), Memory>
    ensures { OnOk result (text.new.items ≡ text.old.items ++ numbered before.now after.now count) }
{
    for passed in 0..count {
        put(text, before)?;
        put_number(text, passed + 1)?;
        put(text, after)?;
    }
    Ok(())
}
