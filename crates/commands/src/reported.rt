//! The report on a race.
ghost use Rattle.std.specs.Prelude.{◌≡◌, ◌≤◌, length, IfOk};
ghost use Rattle.race_outcome.specs.Ends.{end_view, lines_in, conflicts_in};
ghost use Rattle.plan_report.specs.Report.{report_of};
ghost use Rattle.plan_report.specs.Laws.{HasActionsBelow, IsSmall};
ghost use Rattle.commands.specs.Raced.{outcome_of};
ghost use Rattle.plan_endings.specs.declared.ending.Ending.{Ending};
ghost use Rattle.plan_endings.specs.Ends.{OnlyMemory};

use crate::raced::outcome;
use horizon_rates::Settings;
use pl_io::Bytes;
use plan_endings::Ending;
use plan_endings::stop::Stop;
use plan_report::report_text;
use plan_tasks::ready::Ready;
use race_outcome::RaceEnd;
use std::alloc::Global;

/// The ending that tells of a race with its report.
pub fn reported(
    alloc: Global,
    ready: &Ready,
    end: &RaceEnd,
    settings: &Settings,
) -> Result<Ending, Stop>
    requires actions { HasActionsBelow (length ready.now.grounded.calls) (end_view end.now) }
    requires sums { conflicts_in (lines_in (end_view end.now)) ≤ settings.now.budget }
    ensures told { IfOk result (λ ending. IsSmall settings.now.budget (end_view end.now) × (ending ≡ Ending.Report (outcome_of (end_view end.now)) (report_of ready.now.task ready.now.grounded settings.now.budget (end_view end.now)))) }
    ensures memory { OnlyMemory result }
{
    let text = report_text(alloc, &ready.task, &ready.grounded, end, settings.budget)?;
    Ok(Ending::Report {
        outcome: outcome(end),
        text: Bytes::of(text.into_vec()),
    })
}
