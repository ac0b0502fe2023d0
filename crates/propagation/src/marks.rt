//! The clauses of two literals of a literal that became false: each whose other literal is not true asks for that.
ghost use Rattle.std.specs.Prelude.{◌≡◌, ◌*◌, ◌<◌, [], length, false, true, unwrap_or};
ghost use Rattle.clause_base.specs.Literal.{opposite};
ghost use Rattle.clause_base.specs.Clause.{has_literal};
ghost use Rattle.bit_sets.specs.Layered.{words_have};
ghost use Rattle.clause_base.specs.Pairs.{pairs_of};
ghost use Rattle.cdcl_tables.specs.Pairs.{IsPairOf};
ghost use Rattle.cdcl_tables.specs.declared.origin.Origin.TheVariants.{Time};
ghost use Rattle.propagation.specs.own.Asks.{HasAsks};
ghost use Rattle.propagation.specs.own.Pairs.{AreAllMarked, AreAllPairsOf, AreMarked, ArePairsOf};
ghost use Rattle.propagation.specs.own.Visit.{Grows, IsFit};

use crate::pending::Pending;
use cdcl_tables::assignment::Assignment;
use cdcl_tables::index::PairIndex;
use cdcl_tables::list::PairList;
use cdcl_tables::lists::Lists;
use cdcl_tables::origin::Origin;
use cdcl_tables::store::Store;
use clause_base::pair::Pair;

/// Puts the clause of a pair of a false literal into the set, if its other literal is not true.
#[inline(always)]
fn mark(store: &Store, pair: Pair, assignment: &Assignment, falsified: u32, pending: &mut Pending)
    requires fit { IsFit store.now.clauses (2 * assignment.now.variables) }
    requires falsified { has_literal assignment.now.trail (opposite falsified) ≡ true }
    requires exact { IsPairOf store.now.clauses falsified pair }
    requires asks { HasAsks store.now.clauses assignment.now.trail pending.old }
    ensures in_set { has_literal assignment.now.trail pair.other ≡ false → words_have pending.new.numbers pair.number ≡ true }
    ensures grows { Grows (words_have pending.old.numbers) (words_have pending.new.numbers) }
    ensures asks { HasAsks store.now.clauses assignment.now.trail pending.new }
{
    if assignment.is_true(pair.other) {
        return;
    }
    pending.put(pair.number, pair.other);
}

/// Puts the clauses of a list of pairs of a false literal into the set whose other literal is not true.
#[inline(always)]
fn mark_all(
    store: &Store,
    pairs: &PairList,
    assignment: &Assignment,
    falsified: u32,
    pending: &mut Pending,
)
    requires fit { IsFit store.now.clauses (2 * assignment.now.variables) }
    requires falsified { has_literal assignment.now.trail (opposite falsified) ≡ true }
    requires exact { ArePairsOf store.now.clauses falsified pairs.now }
    requires asks { HasAsks store.now.clauses assignment.now.trail pending.old }
    ensures in_set { AreMarked assignment.now.trail pairs.now pending.new }
    ensures grows { Grows (words_have pending.old.numbers) (words_have pending.new.numbers) }
    ensures asks { HasAsks store.now.clauses assignment.now.trail pending.new }
{
    for place in 0..pairs.len() {
        mark(store, pairs.at(place), assignment, falsified, pending);
    }
}

/// Puts the clauses of a list of pairs of a false literal, if there is one, into the set whose other literal is not true.
#[inline(always)]
fn mark_list(
    store: &Store,
    pairs: Option<PairList>,
    assignment: &Assignment,
    falsified: u32,
    pending: &mut Pending,
)
    requires fit { IsFit store.now.clauses (2 * assignment.now.variables) }
    requires falsified { has_literal assignment.now.trail (opposite falsified) ≡ true }
    requires exact { ArePairsOf store.now.clauses falsified (unwrap_or pairs []) }
    requires asks { HasAsks store.now.clauses assignment.now.trail pending.old }
    ensures in_set { AreMarked assignment.now.trail (unwrap_or pairs.entry []) pending.new }
    ensures grows { Grows (words_have pending.old.numbers) (words_have pending.new.numbers) }
    ensures asks { HasAsks store.now.clauses assignment.now.trail pending.new }
{
    if let Some(pairs) = pairs {
        mark_all(store, &pairs, assignment, falsified, pending);
    }
}

/// Puts the clauses of two literals of a false fact at a time into the set whose other literal is not true: those of the step that
/// ends there, of the step that begins there, and of the time.
#[inline(always)]
fn mark_fact(
    store: &Store,
    lists: &Lists,
    time: u32,
    fact: u32,
    assignment: &Assignment,
    falsified: u32,
    pending: &mut Pending,
)
    requires fit { IsFit store.now.clauses (2 * assignment.now.variables) }
    requires falsified { has_literal assignment.now.trail (opposite falsified) ≡ true }
    requires origin { lists.now.origin ≡ Time time fact }
    requires listed { AreAllPairsOf store.now.clauses falsified lists.now }
    requires asks { HasAsks store.now.clauses assignment.now.trail pending.old }
    ensures in_set { AreAllMarked assignment.now.trail lists.now pending.new }
    ensures grows { Grows (words_have pending.old.numbers) (words_have pending.new.numbers) }
    ensures asks { HasAsks store.now.clauses assignment.now.trail pending.new }
{
    let ending = lists.last(time, fact);
    mark_list(store, ending, assignment, falsified, pending);
    let beginning = lists.next(time, fact);
    mark_list(store, beginning, assignment, falsified, pending);
    let same = lists.time(time, fact);
    mark_list(store, same, assignment, falsified, pending);
}

/// Puts the clauses of steps and times of two literals of a false literal into the set whose other literal is not true. Of which
/// step or time the literal is, is looked at once.
#[inline(always)]
fn mark_repeated(
    store: &Store,
    lists: &Lists,
    assignment: &Assignment,
    falsified: u32,
    pending: &mut Pending,
)
    requires fit { IsFit store.now.clauses (2 * assignment.now.variables) }
    requires falsified { has_literal assignment.now.trail (opposite falsified) ≡ true }
    requires listed { AreAllPairsOf store.now.clauses falsified lists.now }
    requires asks { HasAsks store.now.clauses assignment.now.trail pending.old }
    ensures in_set { AreAllMarked assignment.now.trail lists.now pending.new }
    ensures grows { Grows (words_have pending.old.numbers) (words_have pending.new.numbers) }
    ensures asks { HasAsks store.now.clauses assignment.now.trail pending.new }
{
    match lists.origin() {
        Origin::Step(step, code) => mark_list(
            store,
            lists.of_step(step, code),
            assignment,
            falsified,
            pending,
        ),
        Origin::Time(time, fact) => mark_fact(
            store, lists, time, fact, assignment, falsified, pending,
        ),
        Origin::Other => {}
    }
}

/// Puts the clauses of two literals of a false literal into the set whose other literal is not true.
#[inline(always)]
pub fn mark_pairs(
    store: &Store,
    index: &PairIndex,
    assignment: &Assignment,
    falsified: u32,
    pending: &mut Pending,
)
    requires fit { IsFit store.now.clauses (2 * assignment.now.variables) }
    requires falsified { has_literal assignment.now.trail (opposite falsified) ≡ true }
    requires inside { falsified < length index.now }
    requires exact { ArePairsOf store.now.clauses falsified (pairs_of index.now falsified) }
    requires asks { HasAsks store.now.clauses assignment.now.trail pending.old }
    ensures in_set { AreMarked assignment.now.trail (pairs_of index.now falsified) pending.new }
    ensures grows { Grows (words_have pending.old.numbers) (words_have pending.new.numbers) }
    ensures asks { HasAsks store.now.clauses assignment.now.trail pending.new }
{
    let lists = index.lists(falsified);
    mark_list(store, lists.told(), assignment, falsified, pending);
    mark_repeated(store, &lists, assignment, falsified, pending);
    // With a second caller the loop stays a function of its own, and so the test before it goes into this one.
    match lists.after() {
        None => {}
        Some(pairs) => mark_all(store, &pairs, assignment, falsified, pending),
    }
}
