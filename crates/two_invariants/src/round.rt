//! One round: some actions are tested, and what they break is dropped.

ghost use Rattle.std.specs.Prelude.{◌≡◌, ℕ, ◌+◌, ◌*◌, ◌<◌, ◌≤◌, ◌&&◌, true, false, not, length, IfOk, OnOk};
ghost use Rattle.std.specs.List.{AllByRecursion};
ghost use Rattle.bit_sets.specs.Rows.{row_has, room};
ghost use Rattle.gt_core.specs.Literal.{opposite};
ghost use Rattle.implied_literals.specs.Rows.{clause_in, AreRows};
ghost use Rattle.implied_literals.specs.Tested.{AreKnown};
ghost use Rattle.implied_literals.specs.Renewed.{IsTested};
ghost use Rattle.two_invariants.specs.own.Losses.{are_lost, AreLosses, AreAllLosses, CanTest, IsDropped};
ghost use Rattle.two_invariants.specs.own.Rounds.{IsRound};

use crate::broken::add_losses_of;
use crate::drop::drop_lost;
use crate::takers::Room;
use bit_sets::row::{BitRow, empty_rows};
use gt_core::act::Act;
use gt_core::task::Task;
use implied_literals::known::Known;
use rayon::prelude::*;
use std::alloc::{AllocError, Global};
use std::thread::Threads;

/// How many actions put what they break into the same rows: as many as are worth a thread of their own, since to start
/// one takes as long as testing some hundred.
const PIECE: usize = 2048;

/// What a round tests: the actions with the numbers `todo`, where this is known and these are the clauses over literals of
/// so many facts.
#[derive(Drop)]
struct Round<'a> {
    facts: u32,
    known: &'a Known,
    clauses: &'a [BitRow],
    acts: &'a [Act],
    todo: &'a [usize],
}

/// What the actions of one piece break, the one with the number `piece`.
fn piece_losses(alloc: Global, round: &Round, piece: usize) -> Result<Vec<BitRow>, AllocError>
    requires can { CanTest round.now.facts round.now.known.now round.now.clauses.now round.now.acts.now round.now.todo.now }
    requires piece { 2048 * piece < length round.now.todo.now }
    ensures { IfOk result (λ lost. AreLosses round.now.facts round.now.known.now round.now.clauses.now round.now.acts.now round.now.todo.now (2048 * piece) (2048 * piece + 2048) lost.items) }
{
    let acts = round.acts;
    let todo = round.todo;
    let low = PIECE * piece;
    let count = PIECE.min(todo.len() - low);
    let mut lost = empty_rows(alloc, 2 * round.facts as usize)?;
    let mut room = Room {
        there: BitRow::new(alloc),
        given: BitRow::new(alloc),
    };
    for i in low..low + count {
        add_losses_of(
            alloc,
            round.facts,
            round.known,
            round.clauses,
            &acts[todo[i]],
            &mut lost,
            &mut room,
        )?;
    }
    Ok(lost)
}

/// What some actions break, tested in parallel: rows for each piece of them.
fn all_losses(
    rt: &(impl Threads + Sync),
    alloc: Global,
    round: &Round,
) -> Result<Vec<Vec<BitRow>>, AllocError>
    requires can { CanTest round.now.facts round.now.known.now round.now.clauses.now round.now.acts.now round.now.todo.now }
    ensures { IfOk result (λ tables. AreAllLosses round.now.facts round.now.known.now round.now.clauses.now round.now.acts.now round.now.todo.now tables.items) }
{
    (0..round.todo.len().div_ceil(PIECE))
        .into_par_iter()
        .with_min_len(1)
        .map(
            |p: usize| -> Result<Vec<BitRow>, AllocError>
                requires { CanTest round.now.facts round.now.known.now round.now.clauses.now round.now.acts.now round.now.todo.now × (2048 * p < length round.now.todo.now) }
                ensures { IfOk result (λ t. AreLosses round.entry.now.facts round.entry.now.known.now round.entry.now.clauses.now round.entry.now.acts.now round.entry.now.todo.now (2048 * p) (2048 * p + 2048) t.items) }
            { piece_losses(alloc, round, p) },
        )
        .collect::<Result<Vec<_>, AllocError>>(rt, alloc)?
}

/// Drops what rows of lost clauses say. Whether there was something to drop. The opposites of the literals whose clauses
/// become fewer are put into `stale`.
fn drop_all(rows: &mut Vec<BitRow>, tables: &[Vec<BitRow>], stale: &mut BitRow) -> bool
    requires few { length rows.old.items ≤ 4096 }
    requires even { (l : ℕ) → l < length rows.old.items → opposite l < room stale.old }
    requires fit { AllByRecursion (λ t. (length t.items ≡ length rows.old.items) × ((l m : ℕ) → clause_in t.items l m ≡ true → m < length rows.old.items)) tables.now }
    requires either { (a b : ℕ) → clause_in rows.old.items a b ≡ clause_in rows.old.items b a }
    ensures long { length rows.new.items ≡ length rows.old.items }
    ensures has { (a b : ℕ) → clause_in rows.new.items a b ≡ (clause_in rows.old.items a b && not (are_lost tables.now a b)) }
    ensures stale { IsDropped rows.old.items rows.new.items (row_has stale.old) (row_has stale.new) }
    ensures some { result ≡ true → (a b : ℕ) × (are_lost tables.now a b ≡ true) }
    ensures none { result ≡ false → (a b : ℕ) → are_lost tables.now a b ≡ false }
{
    let mut dropped = false;
    for table in tables {
        let more = drop_lost(rows, table.as_slice(), stale);
        dropped = dropped || more;
    }
    dropped
}

/// One round: tests some actions, of which the others break nothing, and drops what is broken. Whether there was
/// something to drop. The opposites of the literals whose clauses become fewer are put into `stale`.
pub fn drop_broken(
    rt: &(impl Threads + Sync),
    alloc: Global,
    task: &Task,
    asked: &BitRow,
    known: &Known,
    todo: &[usize],
    rows: &mut Vec<BitRow>,
    stale: &mut BitRow,
) -> Result<bool, AllocError>
    requires rows { AreRows task.now.facts rows.old.items }
    requires either { (l m : ℕ) → clause_in rows.old.items l m ≡ clause_in rows.old.items m l }
    requires known { AreKnown (clause_in rows.old.items) (2 * task.now.facts) (row_has asked.now) known.now }
    requires tested { IsTested task.now known.now rows.old.items todo.now }
    ensures rows { OnOk result (AreRows task.now.facts rows.new.items) }
    ensures round { IfOk result (IsRound task.now known.now rows.old.items rows.new.items) }
    ensures stale { OnOk result ((a b : ℕ) → clause_in rows.old.items a b ≡ true → clause_in rows.new.items a b ≡ false → row_has stale.new (opposite a) ≡ true) }
{
    let facts = task.facts();
    stale.make_room(2 * facts as usize)?;
    let round = Round {
        facts,
        known,
        clauses: rows.as_slice(),
        acts: task.acts(),
        todo,
    };
    let tables = all_losses(rt, alloc, &round)?;
    Ok(drop_all(rows, tables.as_slice(), stale))
}
