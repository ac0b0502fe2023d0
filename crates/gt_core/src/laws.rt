//! What makes steps and the published order useful, as a contract.

ghost use Rattle.gt_core.specs.Laws.{EachStepRunsInOrder, NeverItself, EachOrderRuns, OneActionIsStep, EmptySetIsStep, PublishedKeepsApart, PublishedIsUnique, PublishedHasEachOnce, StepPlanRunsInOrder};

/// The laws of steps and of the published order. It does nothing.
pub fn laws()
    ensures runs_in_order { EachStepRunsInOrder }
    ensures never_itself { NeverItself }
    ensures each_order { EachOrderRuns }
    ensures one_action { OneActionIsStep }
    ensures empty_set { EmptySetIsStep }
    ensures keeps_apart { PublishedKeepsApart }
    ensures unique { PublishedIsUnique }
    ensures each_once { PublishedHasEachOnce }
    ensures plan_runs { StepPlanRunsInOrder }
{}
