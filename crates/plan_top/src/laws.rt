//! What the crates below promise, gathered.
ghost use Rattle.plan_top.specs.Laws.{Laws};

/// The laws on which the promises of the top call rest, for its proof; it does nothing.
pub fn laws()
    ensures { Laws }
{
    requests::laws::laws();
    report_lines::laws();
    gt_core::laws::laws();
    grounding_defs::laws::laws();
    plan_report::laws::laws();
    proof_log::laws::laws();
    plan_tasks::laws::laws();
}
