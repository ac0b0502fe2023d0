//! A line that was read, as entries for a checker.
ghost use Rattle.std.specs.Prelude.{◌≡◌, ℕ, List, true, false, Some, None, Ok, length, option_map, IfOk};
ghost use Rattle.clause_base.specs.Clause.{IsClause};
ghost use Rattle.clause_base.specs.declared.log.Entry.{Entry};
ghost use Rattle.clause_base.specs.declared.log.Entry.TheVariants.{Learn as learn_entry, Drop as drop_entry};
ghost use Rattle.sat_text.specs.LratLine.{LineView, IsHeld};
ghost use Rattle.rup_check.specs.Taken.{HasTaken};
ghost use Rattle.lrat_judge.specs.Judged.{HasCounted, counted};
ghost use Rattle.lrat_judge.specs.Follow.{Known, number_named, numbers_named, with_entry, with_clause, without};
ghost use Rattle.lrat_judge.specs.Reached.{StandsAt, Stands, Enters};

use crate::ids::IdTable;
use clause_base::clause::Clause;
use clause_base::literal::Lit;
use containers::memory::Memory;
use rup_check::checker::Checker;
use sat_text::lrat_line::Line;
use std::alloc::Global;

// The number of the clause that an id names, from 0: the formula's come first.
fn number_of(ids: &IdTable, id: u64) -> Option<u32>
    ensures { result ≡ number_named ids.now id }
{
    u32::try_from(ids.find(id)?).ok()
}

// Makes a vector hold the numbers that the ids of a line name, and says whether each names one.
fn read_hints(hints: &mut Vec<u32>, ids: &IdTable, line: &Line) -> Result<bool, Memory>
    ensures named { result ≡ Ok true → numbers_named ids.now line.now.ids.items ≡ Some hints.new.items }
    ensures unnamed { result ≡ Ok false → numbers_named ids.now line.now.ids.items ≡ None }
{
    hints.clear();
    for id in &line.ids {
        let Some(number) = number_of(ids, *id) else {
            return Ok(false);
        };
        hints.push(number)?;
    }
    Ok(true)
}

// Takes the entry that learns a clause by these hints, where it is derived, and says whether it is.
fn learn_counted(
    checker: &mut Checker<'_>,
    clause: &[Lit],
    hints: &[u32],
    entries: &mut u64,
) -> Result<bool, Memory>
    requires lawful { IsClause clause.now }
    requires counted { HasCounted checker.old entries.old }
    ensures formula { checker.new.formula ≡ checker.old.formula }
    ensures counted { HasCounted checker.new entries.new }
    ensures exact { (log : List Entry) → HasTaken checker.old log → entries.old ≡ counted (length log)
        → IfOk result (λ taken. Enters taken checker.new entries.new (with_entry checker.old.formula log (learn_entry clause.now hints.now))) }
{
    if !checker.learn(clause, hints)? {
        return Ok(false);
    }
    *entries = entries.saturating_add(1);
    Ok(true)
}

// Takes the entry that drops the clause with this number, where it is kept, and says whether it is.
fn forget_counted(checker: &mut Checker<'_>, number: u32, entries: &mut u64) -> bool
    requires { HasCounted checker.old entries.old }
    ensures formula { checker.new.formula ≡ checker.old.formula }
    ensures counted { HasCounted checker.new entries.new }
    ensures exact { (log : List Entry) → HasTaken checker.old log → entries.old ≡ counted (length log)
        → Enters result checker.new entries.new (with_entry checker.old.formula log (drop_entry number)) }
{
    if !checker.forget(number) {
        return false;
    }
    *entries = entries.saturating_add(1);
    true
}

/// Takes the line as one that adds a clause, where the clause is derived by the hints, and says whether it is. A tautology is always
/// true: it is passed over, and its id names no clause.
pub fn learn(
    alloc: Global,
    checker: &mut Checker<'_>,
    ids: &mut IdTable,
    line: &Line,
    hints: &mut Vec<u32>,
    entries: &mut u64,
) -> Result<bool, Memory>
    requires { HasCounted checker.old entries.old }
    ensures formula { checker.new.formula ≡ checker.old.formula }
    ensures counted { HasCounted checker.new entries.new }
    ensures exact { (known : Known) (view : LineView) → StandsAt checker.old ids.old entries.old known → IsHeld view line.now
        → IfOk result (λ follows. Stands follows checker.new ids.new entries.new (with_clause checker.old.formula known view)) }
{
    if line.foreign {
        return Ok(false);
    }
    let Some(clause) = Clause::of(alloc, &line.lits)? else {
        return Ok(true);
    };
    if !read_hints(hints, ids, line)? {
        return Ok(false);
    }
    if !ids.push(line.id)? {
        return Ok(false);
    }
    learn_counted(checker, clause.as_slice(), hints, entries)
}

/// Takes the line as one that deletes clauses, and says whether each of its ids names one that was kept until then.
pub fn forget(checker: &mut Checker<'_>, ids: &IdTable, line: &Line, entries: &mut u64) -> bool
    requires { HasCounted checker.old entries.old }
    ensures formula { checker.new.formula ≡ checker.old.formula }
    ensures counted { HasCounted checker.new entries.new }
    ensures exact { (log : List Entry) → HasTaken checker.old log → entries.old ≡ counted (length log)
        → Enters result checker.new entries.new (without checker.old.formula ids.now line.now.ids.items log) }
{
    for id in &line.ids {
        let Some(number) = number_of(ids, *id) else {
            return false;
        };
        if !forget_counted(checker, number, entries) {
            return false;
        }
    }
    true
}
