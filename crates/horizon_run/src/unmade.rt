//! The run of a horizon whose solver is not made yet. To make it takes time and the tables of a solver.

ghost use Rattle.std.specs.Prelude.{◌≡◌, ℕ, ◌≤◌, false, IfOk};
ghost use Rattle.cdcl_defs.specs.Run.{start_of};
ghost use Rattle.formula_defs.specs.Layout.{variables};
ghost use Rattle.goal_choice.specs.Means.{gathered_of};
ghost use Rattle.step_encoding.specs.{Limits.planner_literals, Numbers.literals_of};
ghost use Rattle.horizon_run.specs.Run.{choice_in, choice_of, IsNew, IsReached, Stays};
ghost use Rattle.horizon_rates.specs.Limits.{last_horizon};

use crate::run::HorizonRun;
use cdcl_core::solver::Solver;
use cdcl_defs::sound_runs::runs_are_sound;
use clause_base::formula::Formula;
use containers::let_go;
use containers::memory::Memory;
use goal_choice::{GoalChooser, Supporters};
use std::alloc::Global;
use std::marker::Model;
use step_encoding::form::StepForm;

/// What the run of a horizon is made from: its formula, and the chooser of its solver. Contracts see it as the run that it makes.
pub struct Unmade {
    formula: Formula,
    chooser: GoalChooser,
}

impl Model for Unmade {
    ghost use Rattle.std.specs.Prelude.{◌≡◌, false};
    ghost use Rattle.formula_defs.specs.Layout.{variables};
    ghost use Rattle.goal_choice.specs.Choice.{choice_by};
    ghost use Rattle.horizon_run.specs.Run.{RunView, reached};

    ghost Value = { RunView };

    ghost view = { λ u. record {
      formula = u.formula;
      means = u.chooser;
      state = reached (choice_by u.chooser) u.formula 0;
      granted = 0;
      spoilt = false;
    } };

    ghost invariant = { λ u. u.formula.variables ≡ variables u.chooser.layout };
}

/// All parts are let go in one call, so that a proof has one step for it and not one for each part.
impl Drop for Unmade {
    fn drop(self) {
        let_go!(self: Unmade { formula, chooser });
    }
}

/// The solver of a formula before any event, in the tables of a run that ended, where there is one.
fn solver_of(
    alloc: Global,
    formula: Formula,
    chooser: GoalChooser,
    old: Option<HorizonRun>,
) -> Result<Solver<GoalChooser>, Memory>
    requires { formula.variables ≡ variables chooser.layout }
    ensures start { IfOk result (λ s. s ≡ record { formula = formula; state = start_of formula; chooser = chooser; spoilt = false }) }
{
    match old {
        Some(run) => run.into_solver().renewed(formula, chooser),
        None => Solver::new(alloc, formula, chooser),
    }
}

impl Unmade {
    /// The run of a horizon before its first conflict, over supporters that the runs of other horizons share.
    pub fn sharing<F: StepForm>(
        alloc: Global,
        supporters: &Supporters,
        form: &F,
        n: u32,
    ) -> Result<Unmade, Memory>
        requires supporters { supporters.now ≡ gathered_of (F.task form.now) }
        requires horizon { n ≤ last_horizon }
        requires size { literals_of (F.formula_of form.now n) ≤ planner_literals }
        ensures start { IfOk result (λ run. IsNew run) }
        ensures formula { IfOk result (λ run. run.formula ≡ F.formula_of form.now n) }
        ensures choice { IfOk result (λ run. choice_in run ≡ choice_of (F.task form.now) (F.layout_of form.now n)) }
    {
        let Ok(formula) = form.formula(alloc, n) else {
            return Err(Memory);
        };
        let chooser = GoalChooser::sharing(alloc, supporters, form.layout(n))?;
        Ok(Unmade { formula, chooser })
    }

    /// Its horizon.
    pub fn horizon(&self) -> u32
        ensures { result ≡ self.now.formula.name }
    {
        self.formula.name()
    }

    /// What holds of every run, wherever it is.
    pub fn keeps_laws(&self)
        ensures new { IsNew self.now }
        ensures reached { (k : ℕ) → IsReached (choice_in self.now) self.now.formula k }
        ensures settled { Stays (choice_in self.now) self.now.formula }
    {
        // For the proof: the formula's clauses are lawful.
        let _clauses = self.formula.count();
        // For the proof: the formula's literals are of its variables.
        let _variables = self.formula.variables();
        runs_are_sound();
    }

    /// The run, made: its solver comes to its first conflict. It uses the tables of a run that ended, where there is one.
    pub fn made(self, alloc: Global, old: Option<HorizonRun>) -> Result<HorizonRun, Memory>
        ensures { IfOk result (λ run. run ≡ self) }
    {
        let Unmade { formula, chooser } = self;
        let mut solver = solver_of(alloc, formula, chooser, old)?;
        // For the proof: the state is sound, and has at most 1,073,741,824 conflicts.
        let _sound = solver.conflicts();
        solver.advance(0)?;
        Ok(HorizonRun { solver, granted: 0 })
    }
}
