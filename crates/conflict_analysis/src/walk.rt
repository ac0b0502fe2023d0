//! The walk along the trail, from its end to the first unique implication point (Marques-Silva and Sakallah, 1999).
ghost use Rattle.std.specs.Prelude.{◌≡◌, [], reverse, length, OnOk};
ghost use Rattle.cdcl_defs.specs.State.{decision_count};
ghost use Rattle.cdcl_defs.specs.Learn.{walk};
ghost use Rattle.conflict_analysis.specs.own.Resolvent.{literals, seen, AreMarks};
ghost use Rattle.conflict_analysis.specs.Walk.{AreReasonsRead, stops, IsReasoned};

use crate::resolvent::Resolvent;
use cdcl_tables::lookup::Lookup;
use cdcl_tables::store::Store;
use containers::memory::Memory;

/// Whether the walk stops at an entry whose negation is in the clause.
#[inline]
fn stops(level: u32, count: u32) -> bool
    ensures { result ≡ stops level count }
{
    level != 0 && count == 1
}

/// Walks the trail from its end, and notes the clauses that are resolved with, the latest entry's first, in a vector that is written
/// over.
pub(crate) fn walk_back(
    hints: &mut Vec<u32>,
    resolvent: &mut Resolvent,
    store: &Store,
    trail: &Lookup,
    level: u32,
) -> Result<(), Memory>
    requires over { AreMarks trail.now resolvent.old }
    requires reasoned { IsReasoned store.now.clauses trail.now.entries }
    requires read { AreReasonsRead store.now trail.now.entries }
    requires level { level ≡ decision_count trail.now.entries }
    ensures over { OnOk result (AreMarks trail.now resolvent.new) }
    ensures walked { OnOk result (walk store.now.clauses trail.now.entries (reverse trail.now.entries) (record { clause = literals (seen trail.now resolvent.old); hints = [] }) ≡ record { clause = literals (seen trail.now resolvent.new); hints = reverse hints.new.items }) }
{
    let entries = trail.entries();
    hints.clear();
    let mut index = entries.len() as u32;
    'walking: while let Some(position) = resolvent.latest(index) {
        if stops(level, resolvent.count()) {
            return Ok(());
        }
        let entry = entries[position as usize];
        match entry.reason {
            None => return Ok(()),
            Some(reason) => {
                resolvent.resolve(trail, position, entry.literal, &store.clause(reason));
                hints.push(reason)?;
            }
        }
        index = position;
    }
    Ok(())
}
