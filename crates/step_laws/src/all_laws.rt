//! What the formula of all-steps says, as a contract.

ghost use Rattle.step_laws.specs.own.Laws.{SatisfyingStandsForPlan, PlanHasSatisfying, UnsatisfiableHasNoPlan, SequenceHasPlan};
ghost use Rattle.step_laws.specs.own.AllPlan.{all_places, IsAllPlanOf};

/// The laws of the formulas of all-steps. It does nothing.
pub fn laws()
    ensures satisfying_is_plan { SatisfyingStandsForPlan IsAllPlanOf all_places }
    ensures plan_is_satisfying { PlanHasSatisfying IsAllPlanOf all_places }
    ensures unsatisfiable_is_no_plan { UnsatisfiableHasNoPlan IsAllPlanOf all_places }
    ensures sequence_is_plan { SequenceHasPlan IsAllPlanOf }
{}
