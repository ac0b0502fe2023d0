//! How many literals clauses need.

ghost use Rattle.std.specs.Prelude.{◌≡◌, ◌+◌, ◌*◌, ◌<◌, ◌≤◌};
ghost use Rattle.step_encoding.specs.Limits.{most_literals};
ghost use Rattle.never_form.specs.Formed.{needed};

use containers::FlatLists;
use step_encoding::limits::MOST_LITERALS;

/// How long a clause is, or as many literals as a formula has at most, where it is longer.
fn few(long: usize) -> u64
    ensures fewer { result ≤ long }
    ensures few { result ≤ most_literals }
    ensures exact { result < most_literals → result ≡ long }
{
    let long = long as u64;
    if long < MOST_LITERALS {
        long
    } else {
        MOST_LITERALS
    }
}

/// So many literals and those that clauses need, which are counted up to the clause at which they are too many.
pub(crate) fn counted(begun: u64, clauses: &FlatLists<u32>) -> u64
    requires { begun ≤ 4 * most_literals }
    ensures fewer { result ≤ begun + needed clauses.now }
    ensures all { result ≤ most_literals → result ≡ begun + needed clauses.now }
{
    let mut count = begun;
    for number in 0..clauses.len() {
        if MOST_LITERALS < count {
            return count;
        }
        count += 3 * few(clauses.at(number).len()) + 1;
    }
    count
}
