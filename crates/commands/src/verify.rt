//! The checker on a certificate.
ghost use Rattle.std.specs.Prelude.{◌≡◌, ◌≤◌, ◌<◌, ℕ, List, length, Ok, Err, IfOk};
ghost use Rattle.step_encoding.specs.{Limits.planner_literals, Numbers.literals_of};
ghost use Rattle.commands.specs.Known.{HasTooMany};
ghost use Rattle.commands.specs.Judged.{IsJudged, Judges};
ghost use Rattle.horizon_rates.specs.Limits.{last_horizon};
ghost use Rattle.containers.specs.Limits.{certificate_bytes};

use crate::error::ProofError;
use action_order::publish::publish;
use gt_core::task::Task;
use proof_log::Proof;
use rup_check::check::{CheckError, check};
use std::alloc::Global;
use std::thread::Threads;
use step_encoding::exists::ExistsForm;
use step_encoding::form::StepForm;
use step_encoding::limits::PLANNER_LITERALS;
use two_invariants::find;

/// What the checker says of a certificate.
#[derive(Clone, Copy, PartialEq, Eq)]
pub enum Judged {
    /// It is accepted, with so many entries.
    Accepted { entries: u32 },
    /// This entry, counted from 0, is the first that does not follow.
    Rejected { entry: u32 },
    /// All entries follow, and the last one does not learn the empty clause, or there is none.
    NotEmpty,
}

/// What the checker says of a certificate over the formula of its horizon of a task. `Literals` comes exactly where that formula
/// has more than `PLANNER_LITERALS` literals. No solver is run.
pub fn verify(
    rt: &(impl Threads + Sync),
    alloc: Global,
    task: &Task,
    proof: &Proof,
) -> Result<Judged, ProofError>
    requires horizon { proof.now.horizon ≤ last_horizon }
    requires few { length proof.now.log ≤ certificate_bytes }
    ensures judged { IfOk result (Judges task.now proof.now.horizon proof.now.log) }
    ensures literals { (count : ℕ) → result ≡ Err (ProofError.Literals count) → HasTooMany task.now proof.now.horizon count }
{
    let pairs = find(rt, alloc, task)?;
    let order = publish(alloc, task, &pairs)?;
    let form = ExistsForm::new(alloc, task, &pairs, &order)?;
    judge(alloc, &form, proof)
}

// What the checker says of a certificate over the formula of its horizon.
fn judge<F: StepForm>(alloc: Global, form: &F, proof: &Proof) -> Result<Judged, ProofError>
    requires horizon { proof.now.horizon ≤ last_horizon }
    requires few { length proof.now.log ≤ certificate_bytes }
    ensures judged { IfOk result (IsJudged (F.formula_of form.now proof.now.horizon) proof.now.log) }
    ensures small { IfOk result (λ j. literals_of (F.formula_of form.now proof.now.horizon) ≤ planner_literals) }
    ensures none { (entries : ℕ) → result ≡ Ok (Judged.Accepted entries) → (steps : List (List ℕ)) → F.is_plan form.now proof.now.horizon steps → ⊥ }
    ensures literals { (count : ℕ) → result ≡ Err (ProofError.Literals count) → (planner_literals < count) × (count ≡ literals_of (F.formula_of form.now proof.now.horizon)) }
{
    let count = form.size(proof.horizon);
    if count > PLANNER_LITERALS {
        return Err(ProofError::Literals { count });
    }
    let Ok(formula) = form.formula(alloc, proof.horizon) else {
        return Err(ProofError::Memory);
    };
    // For the proof: a formula has at most 1,073,741,824 clauses.
    let _few = formula.count();
    match check(alloc, &formula, &proof.log) {
        Ok(checked) => Ok(Judged::Accepted {
            entries: checked.entries(),
        }),
        Err(CheckError::Rejected { entry }) => Ok(Judged::Rejected { entry }),
        Err(CheckError::NotEmpty) => Ok(Judged::NotEmpty),
        Err(CheckError::Memory) => Err(ProofError::Memory),
    }
}
