//! In which order the races of a batch ask for their formulas.
ghost use Rattle.std.specs.Prelude.{◌≡◌};
ghost use Rattle.gt_core.specs.Published.{IsPublished};
ghost use Rattle.poll_batch.specs.Batch.{IsOrder};

use super::batches::{end_over, race_of, two_of};
use super::lamps::{Ground, form_of, grounded};
use super::seen::holds;
use clause_base::formula::Formula;
use containers::memory::Memory;
use formula_defs::layout::Layout;
use poll_batch::BlockOn;
use std::alloc::{AllocGlobal, Global};
use std::process::Abort;
use std::random::RandomSource;
use std::sync::Wait;
use std::thread::Threads;
use step_encoding::form::{FormError, StepForm};
use step_encoding::steps::Steps;
use test_kit::gates::Notes;

/// A form under a number, and what notes that number where its formula is asked for.
#[derive(Drop)]
struct NotingForm<'a, F> {
    form: F,
    number: u32,
    notes: &'a Notes,
}

impl<'a, F: StepForm> StepForm for NotingForm<'a, F> {
    ghost is_form = { λ noting. F.is_form noting.form };

    ghost task = { λ noting. F.task noting.form };

    ghost layout_of = { λ noting. F.layout_of noting.form };

    ghost formula_of = { λ noting. F.formula_of noting.form };

    ghost is_plan = { λ noting. F.is_plan noting.form };

    ghost stands_for = { λ noting. F.stands_for noting.form };

    ghost numbers = { λ noting. F.numbers noting.form };

    ghost plans = { λ noting. F.plans noting.form };

    ghost long = { λ noting. F.long noting.form };

    ghost members = { λ noting. F.members noting.form };

    ghost refutes = { λ noting. F.refutes noting.form };

    fn layout(&self, n: u32) -> Layout {
        self.form.layout(n)
    }

    fn size(&self, n: u32) -> u64 {
        self.form.size(n)
    }

    fn formula(&self, alloc: Global, n: u32) -> Result<Formula, FormError> {
        self.notes.advance(self.number);
        self.form.formula(alloc, n)
    }

    fn steps_of(&self, alloc: Global, n: u32, values: &[bool]) -> Result<Steps, Memory> {
        self.form.steps_of(alloc, n, values)
    }
}

/// The races of a lamp that is off, under 0, and one that is on, under 1, ask for their formulas in this order, each once.
fn are_asked<H: Threads + Wait + Sync + RandomSource + AllocGlobal + Abort>(
    rt: &H,
    off: &Ground,
    on: &Ground,
    turns: &[u32],
    steps: &[u64],
)
    requires off { IsPublished off.now.task off.now.pairs.clauses off.now.order }
    requires on { IsPublished on.now.task on.now.pairs.clauses on.now.order }
    requires turns { IsOrder 2 turns.now }
{
    let alloc = rt.alloc();
    let notes = Notes::new();
    let first = NotingForm {
        form: form_of(rt, alloc, off),
        number: 0,
        notes: &notes,
    };
    let second = NotingForm {
        form: form_of(rt, alloc, on),
        number: 1,
        notes: &notes,
    };
    let one = race_of(rt, alloc, &off.task, &first);
    let other = race_of(rt, alloc, &on.task, &second);
    let races = two_of(rt, alloc, one, other);
    end_over(rt, alloc, &mut BlockOn::new(rt), races, turns);
    holds(rt, notes.are(steps));
}

// The race whose turn comes first asks first: 3h + 1 is noted for the number h.
#[test]
fn formulas_are_asked_for_in_the_order_of_the_turns(rt: HostRuntime) {
    let off = grounded(&rt, rt.alloc(), false);
    let on = grounded(&rt, rt.alloc(), true);
    are_asked(&rt, &off, &on, &[0, 1], &[1, 4]);
    are_asked(&rt, &off, &on, &[1, 0], &[4, 1]);
}
