// Numbers of things.
ghost use Rattle.std.specs.Prelude.{◌≡◌, suc, IfOk, IfErr};
ghost use Rattle.pd_words.specs.declared.fault.ReadError.TheVariants as errors;

use crate::fault::ReadError;

/// The number after this one; it fails only for want of memory.
pub fn next_number(number: u32) -> Result<u32, ReadError>
    ensures next { IfOk result (λ n. n ≡ suc number) }
    ensures memory { IfErr result (λ e. e ≡ errors.Memory) }
{
    if number == u32::MAX {
        Err(ReadError::Memory)
    } else {
        Ok(number + 1)
    }
}
