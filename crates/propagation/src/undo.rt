//! Where the trail is taken back, and which clauses are pending then.
ghost use Rattle.std.specs.Prelude.{◌≡◌, ℕ, ◌*◌, ◌<◌, ◌≤◌, length, true, false, slice_index_or};
ghost use Rattle.propagation.specs.own.Asks.{HasAsks};
ghost use Rattle.propagation.specs.own.Back.{taken_back};
ghost use Rattle.propagation.specs.Front.{IsComplete};
ghost use Rattle.propagation.specs.Known.{AreListed};
ghost use Rattle.propagation.specs.own.Tables.{AreTables, pending_in};

use crate::front::scan_one;
use crate::known::scan_listed;
use crate::pending::Pending;
use crate::tables::Tables;
use cdcl_tables::assignment::Assignment;
use cdcl_tables::trail::Trail;

/// To where a trail is taken back.
#[derive(Clone, Copy)]
pub enum Back {
    /// To a length, or not at all, where it is no longer than that.
    Length(u32),
    /// To the entries of a level and of those below.
    Level(u32),
}

/// Takes back what stands above a length or a level of a trail.
#[inline(always)]
pub fn take_back(trail: &mut Trail, to: Back)
    ensures { trail.new ≡ record trail.old { entries = taken_back to trail.old.entries } }
{
    match to {
        Back::Length(length) => trail.cut(length),
        Back::Level(level) => trail.backtrack(level),
    }
}

/// Puts the clauses into a set that are kept and pending on a trail that was taken back, and takes all others out. Where nothing is
/// pending at its length, as the flags tell, no clause is looked at; else of the clauses whose numbers are below `from` only the
/// listed ones are, for no others are pending.
pub fn refresh(
    tables: &Tables,
    quiet: &Vec<bool>,
    assignment: &Assignment,
    pending: &mut Pending,
    listed: &[u32],
    from: u32,
)
    requires tables { AreTables tables.now (2 * assignment.now.variables) }
    requires room { length tables.now.store.clauses ≤ 64 * length pending.old.numbers }
    requires long { length tables.now.store.clauses ≤ length pending.old.asks.items }
    requires flags { length assignment.now.trail < length quiet.now.items }
    requires quiet { slice_index_or quiet.now.items (length assignment.now.trail) false ≡ true → (k : ℕ) → pending_in tables.now assignment.now.trail k ≡ false }
    requires listed { AreListed (pending_in tables.now assignment.now.trail) listed.now from }
    ensures asks { HasAsks tables.now.store.clauses assignment.now.trail pending.new }
    ensures complete { IsComplete (pending_in tables.now assignment.now.trail) pending.new }
{
    let is_quiet = quiet[assignment.length() as usize];
    pending.clear();
    if is_quiet {
        return;
    }
    scan_listed(tables, assignment, pending, listed);
    for number in from..tables.kept.len() as u32 {
        scan_one(tables, assignment, pending, number);
    }
}
