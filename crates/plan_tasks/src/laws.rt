//! What the crates below promise, gathered.
//!
//! `specs/Laws.antt` says on which laws claims on tasks rest, `specs/PlanLaws.antt` on which claims on told plans do.
ghost use Rattle.plan_tasks.specs.PlanLaws.{PlanLaws};

/// The laws on which claims on tasks and on told plans rest, for proofs; it does nothing.
pub fn laws()
    ensures { PlanLaws }
{
    gt_core::laws::laws();
    two_invariants::laws::laws();
    grounding_defs::laws::laws();
    step_plans::laws::laws();
    plan_report::laws::laws();
}
