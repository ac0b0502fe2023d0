//! The certificate of a horizon, by its run.
ghost use Rattle.std.specs.Prelude.{◌≡◌, ◌≤◌, ◌<◌, ℕ, Bool, List, Ok, Err, IfOk, false};
ghost use Rattle.clause_base.specs.Formula.{IsModel};
ghost use Rattle.horizon_run.specs.Run.{choice_in, choice_of, reached, Stays};
ghost use Rattle.step_encoding.specs.{Limits.planner_literals, Numbers.literals_of};
ghost use Rattle.commands.specs.Known.{HasTooMany};
ghost use Rattle.commands.specs.Certificate.{IsSpelled, IsCertificate};
ghost use Rattle.commands.specs.Proved.{certificate_of, proved_of, Proves};
ghost use Rattle.horizon_rates.specs.Limits.{last_horizon};

use crate::error::ProofError;
use action_order::publish::publish;
use cdcl_defs::standing::Standing;
use containers::limits::CERTIFICATE_BYTES;
use containers::memory::Memory;
use gt_core::task::Task;
use horizon_run::HorizonRun;
use proof_log::log::Log;
use proof_log::{Text, proof_length, write_proof, written};
use std::alloc::Global;
use std::thread::Threads;
use step_encoding::exists::ExistsForm;
use step_encoding::form::StepForm;
use step_encoding::limits::PLANNER_LITERALS;
use two_invariants::find;

/// What the run of a horizon comes to.
#[derive(Drop)]
pub enum Proved {
    /// It is refuted: its certificate.
    Certificate(Text),
    /// It is refuted, and its certificate has more than 16,777,216 bytes.
    TooLong,
    /// A plan was found after so many conflicts.
    Plan { conflicts: u64 },
    /// It is open after so many conflicts, the whole budget.
    Open { conflicts: u64 },
}

/// What the run of a horizon of a task comes to that is granted a budget of conflicts. `Literals` comes exactly where the
/// horizon's formula has more than `PLANNER_LITERALS` literals.
pub fn prove(
    rt: &(impl Threads + Sync),
    alloc: Global,
    task: &Task,
    horizon: u32,
    budget: u64,
) -> Result<Proved, ProofError>
    requires horizon { horizon ≤ last_horizon }
    requires budget { budget ≤ 1000000 }
    ensures proved { IfOk result (Proves task.now horizon budget) }
    ensures literals { (count : ℕ) → result ≡ Err (ProofError.Literals count) → HasTooMany task.now horizon count }
{
    let pairs = find(rt, alloc, task)?;
    let order = publish(alloc, task, &pairs)?;
    let form = ExistsForm::new(alloc, task, &pairs, &order)?;
    run_on(alloc, task, &form, horizon, budget)
}

// What the run of a horizon of a form comes to.
fn run_on<F: StepForm>(
    alloc: Global,
    task: &Task,
    form: &F,
    horizon: u32,
    budget: u64,
) -> Result<Proved, ProofError>
    requires form_of { F.task form.now ≡ task.now }
    requires horizon { horizon ≤ last_horizon }
    requires budget { budget ≤ 1000000 }
    ensures proved { IfOk result (λ p. p ≡ proved_of horizon (reached (choice_of task.now (F.layout_of form.now horizon)) (F.formula_of form.now horizon) budget)) }
    ensures small { IfOk result (λ p. literals_of (F.formula_of form.now horizon) ≤ planner_literals) }
    ensures certified { (text : List ℕ) → result ≡ Ok (Proved.Certificate text) → IsCertificate (F.formula_of form.now) text horizon }
    ensures spent { (conflicts : ℕ) → result ≡ Ok (Proved.Open conflicts) → conflicts ≡ budget }
    ensures found { (conflicts : ℕ) → result ≡ Ok (Proved.Plan conflicts) → (values : List Bool) × IsModel (F.formula_of form.now horizon) values }
    ensures stays { IfOk result (λ p. Stays (choice_of task.now (F.layout_of form.now horizon)) (F.formula_of form.now horizon)) }
    ensures literals { (count : ℕ) → result ≡ Err (ProofError.Literals count) → (planner_literals < count) × (count ≡ literals_of (F.formula_of form.now horizon)) }
{
    let count = form.size(horizon);
    if count > PLANNER_LITERALS {
        return Err(ProofError::Literals { count });
    }
    let mut solving = HorizonRun::new(alloc, task, form, horizon)?;
    solving.go_on(budget as u32)?;
    let proved = told(alloc, horizon, &solving)?;
    Ok(proved)
}

// What a run came to.
fn told(alloc: Global, horizon: u32, solving: &HorizonRun) -> Result<Proved, Memory>
    requires horizon { horizon ≤ last_horizon }
    requires sane { solving.now.spoilt ≡ false }
    ensures proved { IfOk result (λ p. p ≡ proved_of horizon solving.now.state) }
    ensures certified { (text : List ℕ) → result ≡ Ok (Proved.Certificate text) → IsCertificate (λ h. solving.now.formula) text horizon }
    ensures spent { (conflicts : ℕ) → result ≡ Ok (Proved.Open conflicts) → conflicts ≡ solving.now.granted }
    ensures found { (conflicts : ℕ) → result ≡ Ok (Proved.Plan conflicts) → (values : List Bool) × IsModel solving.now.formula values }
    ensures stays { Stays (choice_in solving.now) solving.now.formula }
{
    match solving.standing() {
        Standing::Refuted => certificate(alloc, horizon, solving.log()),
        Standing::Found => Ok(Proved::Plan {
            conflicts: solving.conflicts(),
        }),
        Standing::Going => Ok(Proved::Open {
            conflicts: solving.conflicts(),
        }),
    }
}

// The certificate of a horizon and a log.
fn certificate(alloc: Global, horizon: u32, log: &Log) -> Result<Proved, Memory>
    requires { horizon ≤ last_horizon }
    ensures proved { IfOk result (λ p. p ≡ certificate_of horizon log.now) }
    ensures spelled { (text : List ℕ) → result ≡ Ok (Proved.Certificate text) → IsSpelled text horizon log.now }
{
    written(log);
    if proof_length(horizon, log) > CERTIFICATE_BYTES {
        return Ok(Proved::TooLong);
    }
    Ok(Proved::Certificate(write_proof(alloc, horizon, log)?))
}
