//! The pairs of a literal in five lists: in the rows of which literals of one step and of one time they stand, and how they are
//! moved. How they are moved is worked out only for a list that has pairs, since most have none.
ghost use Rattle.std.specs.Prelude.{◌≡◌, ◌+◌, ◌-◌, ◌*◌, ◌/◌, ◌<◌, ◌≤◌, [], nat_lt, if◌then◌else◌, unwrap_or};
ghost use Rattle.cdcl_tables.specs.own.Lists.{ArePlain, AreTables, AreWithin, IsShape, last_list, moved_list, next_list, plain_move, step_move, time_list, time_move};
ghost use Rattle.cdcl_tables.specs.declared.origin.Origin.TheVariants.{Step, Time};
ghost use Rattle.cdcl_tables.specs.Origin.{AreEmptyBy, IsOrigin};

use crate::list::{Move, PairList};
use crate::origin::{Origin, origin_of};
use crate::shape::Shape;
use clause_base::pair_table::PairTable;
use std::marker::Model;

/// The pairs of a literal that stand as they are, with the clauses numbered from a first one on, if there are any.
#[inline]
fn plain_list(table: &PairTable, code: u32, first: u32) -> Option<PairList<'_>>
    requires within { AreWithin 4294967296 1073741824 table.now }
    requires few { first ≤ 1073741824 }
    ensures { unwrap_or result [] ≡ moved_list table.now (plain_move first) code }
{
    let pairs = table.row(code);
    if pairs.is_empty() {
        return None;
    }
    let to = Move {
        width: 0,
        step: 0,
        facts: 0,
        first,
    };
    Some(PairList::of(pairs, to))
}

/// The pairs of a literal of one step, moved to a step, if there are any.
#[inline]
fn step_list<'a>(shape: &Shape, table: &'a PairTable, step: u32, code: u32) -> Option<PairList<'a>>
    requires shape { IsShape shape.now }
    requires within { AreWithin (2 * (shape.now.width + 2 * shape.now.facts)) shape.now.steps table.now }
    requires step { step < shape.now.horizon }
    ensures { unwrap_or result [] ≡ moved_list table.now (step_move shape.now step) code }
{
    let pairs = table.row(code);
    if pairs.is_empty() {
        return None;
    }
    let to = Move {
        width: shape.width,
        step: step * shape.width,
        facts: shape.facts_begin / 2 + step * shape.facts,
        first: shape.tolds + step * shape.steps as u32,
    };
    Some(PairList::of(pairs, to))
}

/// The pairs of a literal of one time, moved to a time, if there are any.
#[inline]
fn time_list<'a>(shape: &Shape, table: &'a PairTable, time: u32, code: u32) -> Option<PairList<'a>>
    requires shape { IsShape shape.now }
    requires within { AreWithin (2 * shape.now.facts) shape.now.times table.now }
    requires time { time ≤ shape.now.horizon }
    ensures { unwrap_or result [] ≡ moved_list table.now (time_move shape.now time) code }
{
    let pairs = table.row(code);
    if pairs.is_empty() {
        return None;
    }
    let to = Move {
        width: 0,
        step: 0,
        facts: shape.facts_begin / 2 + time * shape.facts,
        first: shape.tolds + (shape.all_steps + time * shape.times),
    };
    Some(PairList::of(pairs, to))
}

/// The pairs of a fact at a time in the step that ends there, if there are any.
#[inline]
fn last_of<'a>(shape: &Shape, step: &'a PairTable, time: u32, fact: u32) -> Option<PairList<'a>>
    requires shape { IsShape shape.now }
    requires within { AreWithin (2 * (shape.now.width + 2 * shape.now.facts)) shape.now.steps step.now }
    requires time { time ≤ shape.now.horizon }
    requires fact { fact < 2 * shape.now.facts }
    ensures { unwrap_or result [] ≡ (if nat_lt 0 time then moved_list step.now (step_move shape.now (time - 1)) (2 * shape.now.width + 2 * shape.now.facts + fact) else []) }
{
    if 0 < time {
        step_list(
            shape,
            step,
            time - 1,
            2 * shape.width + 2 * shape.facts + fact,
        )
    } else {
        None
    }
}

/// The pairs of a fact at a time in the step that begins there, if there are any.
#[inline]
fn next_of<'a>(shape: &Shape, step: &'a PairTable, time: u32, fact: u32) -> Option<PairList<'a>>
    requires shape { IsShape shape.now }
    requires within { AreWithin (2 * (shape.now.width + 2 * shape.now.facts)) shape.now.steps step.now }
    requires fact { fact < 2 * shape.now.facts }
    ensures { unwrap_or result [] ≡ (if nat_lt time shape.now.horizon then moved_list step.now (step_move shape.now time) (2 * shape.now.width + fact) else []) }
{
    if time < shape.horizon {
        step_list(shape, step, time, 2 * shape.width + fact)
    } else {
        None
    }
}

/// The pairs of a literal, in five lists that stand one after another.
#[derive(Drop)]
pub struct Lists<'a> {
    shape: &'a Shape,
    told: &'a PairTable,
    step: &'a PairTable,
    time: &'a PairTable,
    after: &'a PairTable,
    plain: bool,
    code: u32,
    origin: Origin,
}

impl<'a> Model for Lists<'a> {
    ghost use Rattle.cdcl_tables.specs.own.Lists.{ArePlain, AreTables, IsShape, last_list, moved_list, next_list, plain_move, time_list};
    ghost use Rattle.cdcl_tables.specs.Origin.{IsOrigin, ListsView};

    ghost Value = { ListsView };

    ghost view = { λ l. record { origin = l.origin; told = moved_list l.told.now (plain_move 0) l.code; last = last_list l.shape.now l.step.now l.code; next = next_list l.shape.now l.step.now l.code; time = time_list l.shape.now l.time.now l.code; after = moved_list l.after.now (plain_move l.shape.now.before) l.code } };

    ghost invariant = { λ l. IsShape l.shape.now × AreTables l.shape.now l.told.now l.step.now l.time.now l.after.now × IsOrigin l.shape.now l.code l.origin × ArePlain l.plain l.told.now l.after.now };
}

impl<'a> Lists<'a> {
    /// The pairs of a literal in the tables of a formula.
    #[inline]
    pub(crate) fn of(
        shape: &'a Shape,
        told: &'a PairTable,
        step: &'a PairTable,
        time: &'a PairTable,
        after: &'a PairTable,
        plain: bool,
        code: u32,
    ) -> Lists<'a>
        requires shape { IsShape shape.now }
        requires tables { AreTables shape.now told.now step.now time.now after.now }
        requires plain { ArePlain plain told.now after.now }
        ensures told { result.told ≡ moved_list told.now (plain_move 0) code }
        ensures last { result.last ≡ last_list shape.now step.now code }
        ensures next { result.next ≡ next_list shape.now step.now code }
        ensures time { result.time ≡ time_list shape.now time.now code }
        ensures after { result.after ≡ moved_list after.now (plain_move shape.now.before) code }
    {
        let origin = origin_of(shape, code);
        Lists {
            shape,
            told,
            step,
            time,
            after,
            plain,
            code,
            origin,
        }
    }

    /// Those of the clauses before all steps, if there are any.
    #[inline]
    pub fn told(&self) -> Option<PairList<'a>>
        ensures { unwrap_or result [] ≡ self.now.told }
    {
        if self.plain {
            return None;
        }
        plain_list(self.told, self.code, 0)
    }

    /// Of which step or time the literal is: where of neither, there are no pairs of steps and times; where of a step, there are
    /// those of this step alone.
    #[inline]
    pub fn origin(&self) -> Origin
        ensures is { result ≡ self.now.origin }
        ensures empty { AreEmptyBy result self.now.last self.now.next self.now.time }
    {
        self.origin
    }

    /// Those of the step of which the literal is, if there are any.
    #[inline]
    pub fn of_step(&self, step: u32, code: u32) -> Option<PairList<'a>>
        requires { self.now.origin ≡ Step step code }
        ensures { unwrap_or result [] ≡ self.now.next }
    {
        step_list(self.shape, self.step, step, code)
    }

    /// Those of the step that ends where the fact is, if there are any.
    #[inline]
    pub fn last(&self, time: u32, fact: u32) -> Option<PairList<'a>>
        requires { self.now.origin ≡ Time time fact }
        ensures { unwrap_or result [] ≡ self.now.last }
    {
        last_of(self.shape, self.step, time, fact)
    }

    /// Those of the step that begins where the fact is, if there are any.
    #[inline]
    pub fn next(&self, time: u32, fact: u32) -> Option<PairList<'a>>
        requires { self.now.origin ≡ Time time fact }
        ensures { unwrap_or result [] ≡ self.now.next }
    {
        next_of(self.shape, self.step, time, fact)
    }

    /// Those of the time at which the fact is, if there are any.
    #[inline]
    pub fn time(&self, time: u32, fact: u32) -> Option<PairList<'a>>
        requires { self.now.origin ≡ Time time fact }
        ensures { unwrap_or result [] ≡ self.now.time }
    {
        time_list(self.shape, self.time, time, fact)
    }

    /// Those of the clauses after all times, if there are any.
    #[inline]
    pub fn after(&self) -> Option<PairList<'a>>
        ensures { unwrap_or result [] ≡ self.now.after }
    {
        if self.plain {
            return None;
        }
        plain_list(self.after, self.code, self.shape.before)
    }
}
