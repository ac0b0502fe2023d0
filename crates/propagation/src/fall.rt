//! Which two literals of a new clause to watch: those that are not false for longest along the trail.
ghost use Rattle.std.specs.Prelude.{◌≡◌, ℕ, ◌+◌, ◌*◌, ◌<◌, ◌≤◌, List, length, take, slice_index, nat_le};
ghost use Rattle.clause_base.specs.Clause.{has_literal};
ghost use Rattle.propagation.specs.Pending.{is_free};
ghost use Rattle.propagation.specs.own.Latest.{IsFreeUntil, AreLatest};

use cdcl_tables::assignment::Assignment;
use clause_base::literal::Lit;

/// The length of the longest prefix of the trail in which a literal is not false.
pub fn free_until(assignment: &Assignment, code: u32) -> u32
    requires { code < 2 * assignment.now.variables }
    ensures lasts { (n : ℕ) → n ≤ length assignment.now.trail → is_free (has_literal (take n assignment.now.trail)) code ≡ nat_le n result }
    ensures within { result ≤ length assignment.now.trail }
    ensures short { result ≤ assignment.now.variables }
{
    let length = assignment.length();
    if assignment.is_false(code) {
        assignment.position(code)
    } else {
        length
    }
}

/// Two places of a clause, and for how long along the trail their literals are not false.
#[derive(Clone, Copy)]
pub struct Latest {
    pub first: u32,
    pub first_until: u32,
    pub second: u32,
    pub second_until: u32,
}

/// The first two places of a clause, by how long their literals are not false.
#[inline(always)]
fn of_two(one: u32, other: u32) -> Latest
    ensures { (trail clause : List ℕ) (variables : ℕ) → IsFreeUntil trail (slice_index clause 0) variables one → IsFreeUntil trail (slice_index clause 1) variables other → AreLatest trail clause variables 2 result }
{
    if one < other {
        Latest {
            first: 1,
            first_until: other,
            second: 0,
            second_until: one,
        }
    } else {
        Latest {
            first: 0,
            first_until: one,
            second: 1,
            second_until: other,
        }
    }
}

/// Of two places and one more the two whose literals are not false for longest.
#[inline(always)]
fn with_place(two: Latest, place: u32, until: u32) -> Latest
    ensures { (trail clause : List ℕ) (variables : ℕ) → AreLatest trail clause variables place two → IsFreeUntil trail (slice_index clause place) variables until → AreLatest trail clause variables (place + 1) result }
{
    if until > two.first_until {
        return Latest {
            first: place,
            first_until: until,
            second: two.first,
            second_until: two.first_until,
        };
    }
    if until > two.second_until {
        return Latest {
            first: two.first,
            first_until: two.first_until,
            second: place,
            second_until: until,
        };
    }
    two
}

/// The places of the two literals that are not false for longest.
pub fn latest_two(assignment: &Assignment, clause: &[Lit]) -> Latest
    requires below { (p : ℕ) → p < length clause.now → slice_index clause.now p < 2 * assignment.now.variables }
    requires short { length clause.now ≤ 4294967295 }
    requires two { 2 ≤ length clause.now }
    ensures { AreLatest assignment.now.trail clause.now assignment.now.variables (length clause.now) result }
{
    let a = clause[0];
    let b = clause[1];
    let one = free_until(assignment, a.0);
    let other = free_until(assignment, b.0);
    let mut two = of_two(one, other);
    for place in 2..clause.len() as u32 {
        let lit = clause[place as usize];
        let until = free_until(assignment, lit.0);
        two = with_place(two, place, until);
    }
    two
}
