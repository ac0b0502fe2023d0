ghost use Rattle.std.specs.Prelude.{◌≡◌, ◌+◌, ◌*◌, ◌<◌, ◌≤◌, [], Some, IfOk, length, slice_get, All};
ghost use Rattle.clause_base.specs.Clause.{IsClause, HasVariablesBelow};
ghost use Rattle.clause_base.specs.Repeats.{IsRepeatable, all_steps, all_times, facts_at, repeated, variables_of};

use crate::clause_list::ClauseList;
use crate::shared_list::SharedList;
use crate::sizes::{Sizes, sizes_of};
use crate::view::View;
use containers::let_go;
use containers::memory::Memory;
use std::alloc::Global;
use std::marker::Model;

/// The clauses of one step and of one time, seen as those of all steps and of all times of a horizon. The variables are
/// numbered step after step, each with `width` of its own, and after them time after time, each with one for each fact.
/// One step's clauses stand over its own variables, then the facts before it, then those after it; one time's over the facts.
pub struct Repeated {
    horizon: u32,
    width: u32,
    facts: u32,
    sizes: Sizes,
    step: SharedList,
    time: SharedList,
}

impl Model for Repeated {
    ghost use Rattle.clause_base.specs.Repeats.{Repeats};
    ghost use Rattle.clause_base.specs.own.Sizes.{IsSized};

    ghost Value = { Repeats };

    ghost view = { λ r. record { horizon = r.horizon; width = r.width; facts = r.facts; step = r.step; time = r.time } };

    ghost invariant = { λ r. IsSized (record { horizon = r.horizon; width = r.width; facts = r.facts; step = r.step; time = r.time }) r.sizes.first r.sizes.per_step r.sizes.per_time r.sizes.steps r.sizes.all };
}

/// All parts are let go in one call, so that a proof has one step for it and not one for each part.
impl Drop for Repeated {
    fn drop(self) {
        let_go!(self: Repeated { horizon, width, facts, sizes, step, time });
    }
}

impl Repeated {
    /// The clauses of one step and of one time, repeated for so many steps, each with so many variables of its own, over so many
    /// facts. The lists may stand in memory that others share. It takes no memory.
    pub fn sharing(
        horizon: u32,
        width: u32,
        facts: u32,
        step: SharedList,
        time: SharedList,
    ) -> Repeated
        requires few { horizon * length step + (horizon + 1) * length time ≤ 1073741824 }
        requires small { horizon * width + (horizon + 1) * facts ≤ 2147483647 }
        requires step_below { All (HasVariablesBelow (width + 2 * facts)) step }
        requires time_below { All (HasVariablesBelow facts) time }
        ensures { result ≡ record { horizon = horizon; width = width; facts = facts; step = step; time = time } }
    {
        let sizes = sizes_of(horizon, width, &step, &time);
        Repeated {
            sizes,
            horizon,
            width,
            facts,
            step,
            time,
        }
    }

    /// No clauses. It takes no memory.
    pub fn none(alloc: Global) -> Repeated
        ensures { result ≡ record { horizon = 0; width = 0; facts = 0; step = []; time = [] } }
    {
        let step = SharedList::own(ClauseList::new(alloc));
        let time = SharedList::own(ClauseList::new(alloc));
        Repeated::sharing(0, 0, 0, step, time)
    }

    /// How many steps there are.
    #[inline]
    pub fn horizon(&self) -> u32
        ensures value { result ≡ self.now.horizon }
        ensures lawful { IsRepeatable self.now }
    {
        self.horizon
    }

    /// How many variables a step has of its own.
    #[inline]
    pub fn width(&self) -> u32
        ensures { result ≡ self.now.width }
    {
        self.width
    }

    /// How many facts there are.
    #[inline]
    pub fn facts(&self) -> u32
        ensures { result ≡ self.now.facts }
    {
        self.facts
    }

    /// The clauses of one step.
    #[inline]
    pub fn step(&self) -> &SharedList
        ensures { result.now ≡ self.now.step }
    {
        &self.step
    }

    /// The clauses of one time.
    #[inline]
    pub fn time(&self) -> &SharedList
        ensures { result.now ≡ self.now.time }
    {
        &self.time
    }

    /// The same clauses, in memory that their copies share.
    pub fn share(self, alloc: Global) -> Result<Repeated, Memory>
        ensures { IfOk result (λ part. part ≡ self) }
    {
        let Repeated {
            horizon,
            width,
            facts,
            sizes,
            step,
            time,
        } = self;
        Ok(Repeated {
            horizon,
            width,
            facts,
            sizes,
            step: step.share(alloc)?,
            time: time.share(alloc)?,
        })
    }

    /// The same clauses; if they are shared, in the same memory.
    pub fn copy(&self, alloc: Global) -> Result<Repeated, Memory>
        ensures { IfOk result (λ part. part ≡ self.now) }
    {
        let step = self.step.copy(alloc)?;
        let time = self.time.copy(alloc)?;
        Ok(Repeated {
            horizon: self.horizon,
            width: self.width,
            facts: self.facts,
            sizes: self.sizes,
            step,
            time,
        })
    }

    /// How many clauses all steps have.
    #[inline]
    fn step_clauses(&self) -> u32
        ensures value { result ≡ length (all_steps self.now) }
        ensures product { result ≡ self.now.horizon * length self.now.step }
    {
        self.sizes.steps
    }

    /// How many clauses all steps and all times have.
    #[inline]
    pub fn count(&self) -> u32
        ensures value { result ≡ length (repeated self.now) }
        ensures few { result ≤ 1073741824 }
        ensures lawful { All IsClause (repeated self.now) }
        ensures below { All (HasVariablesBelow (variables_of self.now)) (repeated self.now) }
    {
        self.sizes.all
    }

    /// The code of the first fact at a time.
    #[inline(always)]
    fn facts_at(&self, time: u32) -> u32
        requires { time ≤ self.now.horizon }
        ensures { result ≡ facts_at self.now time }
    {
        2 * (self.sizes.first + time * self.facts)
    }

    /// The clause of a step with a place among the clauses of the step.
    #[inline(always)]
    pub fn step_clause(&self, step: u32, place: u32) -> View<'_>
        requires step { step < self.now.horizon }
        requires place { place < length self.now.step }
        ensures { slice_get (all_steps self.now) (step * length self.now.step + place) ≡ Some result }
    {
        let limit = 2 * self.width;
        let low = step * limit;
        let high = self.facts_at(step) - limit;
        View::moved(self.step.clause(place as usize), limit, low, high)
    }

    /// The clause of a time with a place among the clauses of the time.
    #[inline(always)]
    fn time_clause(&self, time: u32, place: u32) -> View<'_>
        requires time { time < self.now.horizon + 1 }
        requires place { place < length self.now.time }
        ensures { slice_get (all_times self.now) (time * length self.now.time + place) ≡ Some result }
    {
        View::moved(self.time.clause(place as usize), 0, 0, self.facts_at(time))
    }

    /// The clause with a number among those of all steps.
    #[inline(always)]
    fn clause_of_steps(&self, number: u32) -> View<'_>
        requires { number < self.now.horizon * length self.now.step }
        ensures { slice_get (all_steps self.now) number ≡ Some result }
    {
        let parts = self.sizes.per_step.parts(number);
        self.step_clause(parts.quotient, parts.rest)
    }

    /// The clause with a number among those of all times.
    #[inline(always)]
    fn clause_of_times(&self, number: u32) -> View<'_>
        requires { number < (self.now.horizon + 1) * length self.now.time }
        ensures { slice_get (all_times self.now) number ≡ Some result }
    {
        let parts = self.sizes.per_time.parts(number);
        self.time_clause(parts.quotient, parts.rest)
    }

    /// The clause with this number: first come those of the steps, step after step, then those of the times.
    #[inline(always)]
    pub fn clause(&self, number: u32) -> View<'_>
        requires { number < length (repeated self.now) }
        ensures value { slice_get (repeated self.now) number ≡ Some result }
        ensures lawful { IsClause result }
        ensures below { HasVariablesBelow (variables_of self.now) result }
    {
        // For the proof: all clauses of the repeated part are lawful, and of its variables.
        let _all = self.count();
        let steps = self.step_clauses();
        if number < steps {
            self.clause_of_steps(number)
        } else {
            self.clause_of_times(number - steps)
        }
    }
}
