//! States as rows of words, 64 truth values to a word.

ghost use Rattle.std.specs.Prelude.{◌≡◌, ◌+◌, ◌*◌, ◌≤◌, ◌<◌, [], length, vec_capacity, IfOk};
ghost use Rattle.bit_sets.specs.Rows.{row_has};
ghost use Rattle.state_store.specs.Packed.{number_of, packed, unpacked, width_of, IsPacked};

use bit_sets::word::has_bit;
use containers::memory::Memory;
use std::alloc::Global;

/// How many words the truth values of so many facts take: one at least.
pub fn width_of(facts: u32) -> usize
    requires { facts ≤ 2147483647 }
    ensures { result ≡ width_of facts }
{
    ((facts as usize + 63) / 64).max(1)
}

/// Truth values as a number, the first one its least bit.
fn number_of(values: &[bool]) -> u64
    requires { length values.now ≤ 64 }
    ensures { result ≡ number_of values.now }
{
    let mut number = 0u64;
    let mut left = values.len();
    while left > 0 {
        left -= 1;
        number = 2 * number + u64::from(values[left]);
    }
    number
}

/// The words of a state, in room that is there.
fn pack(state: &[bool], width: usize, row: &mut Vec<u64>)
    requires { width ≤ vec_capacity row.old }
    ensures row { row.new.items ≡ packed width state.now }
    ensures room { width ≤ vec_capacity row.new }
{
    row.clear();
    let mut rest = state;
    for _done in 0..width {
        let (part, more) = rest.split_at(rest.len().min(64));
        row.push_reserved(number_of(part));
        rest = more;
    }
}

/// Whether a row has a bit.
#[inline(always)]
pub fn has(row: &[u64], bit: u32) -> bool
    requires { bit < 64 * length row.now }
    ensures { result ≡ row_has row.now bit }
{
    has_bit(row[(bit / 64) as usize], bit % 64)
}

/// The row of a state.
pub fn row_of(alloc: Global, state: &[bool]) -> Result<Vec<u64>, Memory>
    requires { length state.now ≤ 2147483647 }
    ensures packed { IfOk result (λ r. IsPacked (length state.now) r.items) }
    ensures state { IfOk result (λ r. unpacked (length state.now) r.items ≡ state.now) }
{
    let width = width_of(state.len() as u32);
    let mut row = Vec::with_capacity(alloc, width)?;
    pack(state, width, &mut row);
    Ok(row)
}
