//! How many propagations a run makes. A propagation is an entry of the trail that a clause forced, counted each time that it is
//! made: the solver stops before each conflict, and what stands on its trail then above what it kept of the one before is new.
use crate::lines::{Out, keep};
use crate::solver::{Plain, go_on};
use cdcl_defs::trail::Assigned;

/// After each so many conflicts the solver restarts: of its trail it keeps what stands before the first decision.
const RESTART: u64 = 64;

/// How many entries of a trail from a place on a clause forced.
fn forced_from(trail: &[Assigned], start: usize) -> u64 {
    let mut count: u64 = 0;
    for (place, entry) in trail.iter().enumerate() {
        if start <= place && entry.reason.is_some() {
            count = count.saturating_add(1);
        }
    }
    count
}

/// How many entries of a trail were kept in the next one. After a restart these are those before the first decision; else those that
/// both have in common at their beginnings, since the learned clause forces a literal where a decision stood, which was not this one.
fn kept(old: &[Assigned], new: &[Assigned], is_restart: bool) -> usize {
    let mut count: usize = 0;
    for (a, b) in old.iter().zip(new) {
        if is_restart && a.reason.is_none() || a.literal.0 != b.literal.0 {
            return count;
        }
        count = count.saturating_add(1);
    }
    count
}

/// Goes on for one conflict, and tells how many propagations came with it; none where nothing is left to do.
fn one_more(out: &mut Out, solver: &mut Plain, old: &mut Vec<Assigned>) -> Option<u64> {
    let conflicts = solver.conflicts();
    old.clear();
    keep(out, old.extend_from_slice(solver.trail()));
    go_on(out, solver, 1);
    if solver.conflicts() == conflicts {
        return None;
    }
    let is_restart = solver.conflicts() % RESTART == 0;
    let start = kept(old.as_slice(), solver.trail(), is_restart);
    Some(forced_from(solver.trail(), start))
}

/// Goes on for so many conflicts, one after another, and counts the propagations. The solver is new.
pub(crate) fn count_propagations(out: &mut Out, solver: &mut Plain, conflicts: u32) -> u64 {
    go_on(out, solver, 0);
    let mut count = forced_from(solver.trail(), 0);
    let mut old = Vec::new(out.alloc);
    for _ in 0..conflicts {
        match one_more(out, solver, &mut old) {
            Some(more) => count = count.saturating_add(more),
            None => break,
        }
    }
    count
}
