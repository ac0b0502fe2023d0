//! What the formula of a horizon says, as a contract.

ghost use Rattle.step_laws.specs.own.Laws.{SatisfyingIsPlan, PlanIsSatisfying, UnsatisfiableIsNoPlan, SequenceIsPlan};
ghost use Rattle.step_laws.specs.Never.{NeverIsNoPlan};

/// The laws of a horizon's formula. It does nothing.
pub fn laws()
    ensures satisfying_is_plan { SatisfyingIsPlan }
    ensures plan_is_satisfying { PlanIsSatisfying }
    ensures unsatisfiable_is_no_plan { UnsatisfiableIsNoPlan }
    ensures sequence_is_plan { SequenceIsPlan }
    ensures never_is_no_plan { NeverIsNoPlan }
{}
