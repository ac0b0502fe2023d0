//! What a reader finds in a report, as a contract.
ghost use Rattle.plan_report.specs.Laws.{LinesAreReadBack, PlansAreRead, StepsAreTold, PlanTextsAreRead, PlanTextsAreReadBack, HorizonsAreTold};

/// The laws of reports, for proofs; it does nothing.
///
/// The lines of a report are read back. The report of a plan is a plan file of its calls, and tells the calls of each step
/// under the step's line; so does the text of a plan without a race. What a report says of a horizon its end tells, and nothing else.
pub fn laws()
    ensures lines { LinesAreReadBack }
    ensures plans { PlansAreRead }
    ensures steps { StepsAreTold }
    ensures texts { PlanTextsAreRead }
    ensures texts_back { PlanTextsAreReadBack }
    ensures horizons { HorizonsAreTold }
{
    report_lines::laws();
    pd_plan::laws();
}
