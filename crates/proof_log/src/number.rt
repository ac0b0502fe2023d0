ghost use Rattle.std.specs.Prelude.{◌≡◌, ◌+◌, ◌++◌, ◌≤◌, length, take, vec_capacity, OnOk};
ghost use Rattle.proof_log.specs.own.Number.{number_of, after_number, bytes_of, bytes_by};

use std::alloc::AllocError;

/// How many bytes a number takes at most.
const MOST: usize = 10;

/// The number that some bytes begin with, and the bytes after it.
#[derive(Clone, Copy)]
pub struct Taken<'a> {
    pub number: u64,
    pub rest: &'a [u8],
}

/// Reads the number that the bytes begin with: 0 where there are none.
#[inline(always)]
pub fn take_number(bytes: &[u8]) -> Taken<'_>
    ensures number { result.number ≡ number_of bytes.now }
    ensures rest { result.rest.now ≡ after_number bytes.now }
{
    // most numbers take one byte, which needs no loop
    if let Some((byte, rest)) = bytes.split_first() {
        if *byte < 128 {
            let number = u64::from(*byte);
            return Taken { number, rest };
        }
    }
    take_long(bytes)
}

/// Reads the number that the bytes begin with, byte by byte: 0 where there are none.
fn take_long(bytes: &[u8]) -> Taken<'_>
    ensures number { result.number ≡ number_of bytes.now }
    ensures rest { result.rest.now ≡ after_number bytes.now }
{
    let mut number = 0u64;
    let mut weight = 1u64;
    let mut rest = bytes;
    while let Some((byte, more)) = rest.split_first() {
        rest = more;
        if *byte < 128 {
            number = number.wrapping_add(weight.wrapping_mul(u64::from(*byte)));
            break;
        }
        number = number.wrapping_add(weight.wrapping_mul(u64::from(*byte - 128)));
        weight = weight.wrapping_mul(128);
    }
    Taken { number, rest }
}

/// Adds a number for whose bytes there is room. It takes no memory: a list of numbers makes room once for all of them.
#[inline(always)]
pub(crate) fn put_within(bytes: &mut Vec<u8>, number: u64)
    requires { length bytes.old.items + length (bytes_of number) ≤ vec_capacity bytes.old }
    ensures put { bytes.new.items ≡ bytes.old.items ++ bytes_of number }
    ensures capacity { vec_capacity bytes.new ≡ vec_capacity bytes.old }
{
    let mut rest = number;
    while rest >= 128 {
        bytes.push_reserved((rest % 128 + 128) as u8);
        rest /= 128;
    }
    bytes.push_reserved(rest as u8);
}

/// Adds a number. After want of memory the bytes that stood before still stand first.
pub fn put_number(bytes: &mut Vec<u8>, number: u64) -> Result<(), AllocError>
    ensures ok { OnOk result (bytes.new.items ≡ bytes.old.items ++ bytes_of number) }
    ensures before { take (length bytes.old.items) bytes.new.items ≡ bytes.old.items }
{
    bytes.reserve(MOST)?;
    put_within(bytes, number);
    Ok(())
}
