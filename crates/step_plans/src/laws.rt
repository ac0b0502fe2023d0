//! What step plans have to do with plans, as a contract.

ghost use Rattle.step_plans.specs.Laws.{StepPlansRun, ShortPlansAreStepPlans, StepPlansGrow, OtherPlansAreLonger, SetsAreLists, ListedHaveActionsOnce, ListedAreInOrder, SetsOfFormsAreListed, SetsAtPlacesAreListed};

/// The laws of step plans and plans. It does nothing.
pub fn laws()
    ensures run { StepPlansRun }
    ensures short { ShortPlansAreStepPlans }
    ensures grow { StepPlansGrow }
    ensures longer { OtherPlansAreLonger }
    ensures lists { SetsAreLists }
    ensures once { ListedHaveActionsOnce }
    ensures in_order { ListedAreInOrder }
    ensures listed { SetsOfFormsAreListed }
    ensures listed_at { SetsAtPlacesAreListed }
{
    gt_core::laws::laws();
    grounding_defs::laws::laws();
}
