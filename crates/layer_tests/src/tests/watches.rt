// Which clause asks first, as literals become true and are taken back.
ghost use Rattle.std.specs.Prelude.{◌≡◌, ◌∷◌, []};

use super::holding::{holds, is};
use clause_base::clause::Clause;
use clause_base::formula::Formula;
use clause_base::literal::Lit;
use std::alloc::Global;
use std::process::Abort;
use watch_lists::watches::Watches;

/// Whether this clause asks first, or none.
fn asks(watches: &Watches, number: Option<u32>) -> bool {
    let pending = watches.least_pending();
    match number {
        Some(wanted) => is(pending, wanted),
        None => pending.is_none(),
    }
}

/// Two clauses over two variables ask, now one and now the other.
fn ask_in_turn(rt: &impl Abort, alloc: Global) {
    let formula = Formula::new(alloc, 0, 2);
    let Ok(mut watches) = Watches::new(alloc, &formula) else {
        rt.panic("memory")
    };
    let Ok(()) = watches.add_sorted(&[Lit(0), Lit(2)]) else {
        rt.panic("memory")
    };
    let Ok(()) = watches.add_sorted(&[Lit(1), Lit(2)]) else {
        rt.panic("memory")
    };
    watches.assign(Lit(3));
    holds(rt, asks(&watches, Some(0)), "the first clause");
    watches.assign(Lit(0));
    holds(rt, asks(&watches, Some(1)), "the second clause");
    watches.undo_to(1);
    holds(rt, asks(&watches, Some(0)), "the first clause again");
    watches.undo_to(0);
    holds(rt, asks(&watches, None), "no clause");
}

#[test]
fn two_clauses_ask_in_turn(rt: HostRuntime) {
    ask_in_turn(&rt, rt.alloc());
}

/// How many variables the long chain has.
const LONG: u32 = 500_000;

/// The clauses that let each variable but the first follow from the one below it, the last one first.
fn long_chain(rt: &impl Abort, alloc: Global) -> Formula
    ensures { result.variables ≡ 500000 }
{
    let mut formula = Formula::new(alloc, 0, LONG);
    for i in 0..LONG - 1 {
        let lits = [Lit(999_997 - 2 * i), Lit(999_998 - 2 * i)];
        let Ok(Some(clause)) = Clause::of(alloc, &lits) else {
            rt.panic("a clause")
        };
        assert!(rt; formula.has_room() && clause.fits(formula.variables()));
        let Ok(()) = formula.add(clause) else {
            rt.panic("memory")
        };
    }
    formula
}

/// The clause that asks once each variable up to this one is true.
fn asking(variable: u32) -> Option<u32> {
    if variable < LONG - 1 {
        Some(LONG - 2 - variable)
    } else {
        None
    }
}

/// The clauses of the long chain ask one after another, as the variables become true from below, and again as the last of them is
/// taken back each time.
fn chain_asks(rt: &impl Abort, alloc: Global, formula: &Formula)
    requires { formula.now.variables ≡ 500000 }
{
    let Ok(mut watches) = Watches::new(alloc, formula) else {
        rt.panic("memory")
    };
    for j in 0..LONG {
        watches.assign(Lit(2 * j));
        holds(rt, asks(&watches, asking(j)), "a clause of the chain");
    }
    for last in (0..LONG).rev() {
        watches.undo_to(last + 1);
        holds(
            rt,
            asks(&watches, asking(last)),
            "a clause of the chain again",
        );
    }
}

/// A body that looks at all clauses does not end here in time, nor one that does so where a literal is taken back.
#[test]
fn long_chain_asks_one_after_another(rt: HostRuntime) {
    let formula = long_chain(&rt, rt.alloc());
    chain_asks(&rt, rt.alloc(), &formula);
}

/// How many clauses ask at once: more than are listed where a literal is made true.
const MANY: u32 = 6;

/// A unit clause for each of some variables.
fn units(rt: &impl Abort, alloc: Global) -> Watches
    ensures variables { result.variables ≡ 6 }
    ensures none { result.trail ≡ [] }
{
    let formula = Formula::new(alloc, 0, MANY);
    let Ok(mut watches) = Watches::new(alloc, &formula) else {
        rt.panic("memory")
    };
    for v in 0..MANY {
        let Ok(()) = watches.add_sorted(&[Lit(2 * v)]) else {
            rt.panic("memory")
        };
    }
    watches
}

/// Makes all these variables true but for the last.
fn assign_five(watches: &mut Watches)
    requires variables { watches.old.variables ≡ 6 }
    requires none { watches.old.trail ≡ [] }
    ensures { watches.new ≡ record watches.old { trail = 0 ∷ 2 ∷ 4 ∷ 6 ∷ 8 ∷ [] } }
{
    watches.assign(Lit(0));
    watches.assign(Lit(2));
    watches.assign(Lit(4));
    watches.assign(Lit(6));
    watches.assign(Lit(8));
}

/// All of more clauses than are listed ask again, once what made them true is taken back.
fn many_ask_again(rt: &impl Abort, alloc: Global) {
    let mut watches = units(rt, alloc);
    assign_five(&mut watches);
    watches.assign(Lit(10));
    holds(rt, asks(&watches, None), "no unit clause");
    for length in (0..MANY).rev() {
        watches.undo_to(length);
        holds(rt, asks(&watches, Some(length)), "a unit clause");
    }
    watches.undo_to(0);
    assign_five(&mut watches);
    holds(rt, asks(&watches, Some(5)), "the last unit clause");
}

#[test]
fn many_clauses_ask_again(rt: HostRuntime) {
    many_ask_again(&rt, rt.alloc());
}
