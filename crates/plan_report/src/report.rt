//! The text of a report.
ghost use Rattle.std.specs.Prelude.{◌≡◌, ◌<◌, ◌^◌, ◌∷◌, ◌++◌, [], length, OnOk, IfOk};
ghost use Rattle.std.specs.List.{AllByRecursion};
ghost use Rattle.report_lines.specs.Lines.{joined};
ghost use Rattle.race_outcome.specs.Ends.{end_view, lines_of, lines_in, conflicts_in};
ghost use Rattle.plan_report.specs.Report.{conflicts_line, end_line, plan_line, exhausted_line, plan_lines, plan_text, report_of, summary_of};
ghost use Rattle.plan_report.specs.Laws.{HasActionsBelow, IsSmallPlan, IsSmallEnd, IsSmall};

use crate::calls::{actions_of, push_steps};
use crate::horizons::{conflicts_of, push_horizons};
use crate::text::Text;
use action_order::numbers::ActNumbers;
use grounder::Grounded;
use pd_model::{Memory, Pddl};
use race_outcome::{Line, RaceEnd};
use report_lines::push_number;
use std::alloc::Global;
use step_encoding::steps::Steps;

/// The lines of an end.
fn lines(end: &RaceEnd) -> &[Line]
    ensures { result.now ≡ lines_of end.now }
{
    match end {
        RaceEnd::Plan { lines, .. } => lines.as_slice(),
        RaceEnd::Exhausted { lines, .. } => lines.as_slice(),
        RaceEnd::Unfinished { lines } => lines.as_slice(),
    }
}

/// Appends the line of the conflicts.
fn push_conflicts(sum: u64, budget: u64, text: &mut Vec<u8>) -> Result<(), Memory>
    ensures { OnOk result (text.new.items ≡ text.old.items ++ joined (conflicts_line sum budget ∷ [])) }
{
    text.extend_from_slice(b"; conflicts ")?;
    push_number(text, sum)?;
    text.extend_from_slice(b" of ")?;
    push_number(text, budget)?;
    text.extend_from_slice(b"\n")?;
    Ok(())
}

/// Appends the line of a plan.
fn push_plan(steps: u32, actions: usize, text: &mut Vec<u8>) -> Result<(), Memory>
    ensures { OnOk result (text.new.items ≡ text.old.items ++ joined (plan_line steps actions ∷ [])) }
{
    text.extend_from_slice(b"; plan of ")?;
    push_number(text, u64::from(steps))?;
    text.extend_from_slice(b" steps with ")?;
    push_number(text, actions as u64)?;
    text.extend_from_slice(b" actions\n")?;
    Ok(())
}

/// Appends the line of the last listed horizon.
fn push_exhausted(horizon: u32, text: &mut Vec<u8>) -> Result<(), Memory>
    ensures { OnOk result (text.new.items ≡ text.old.items ++ joined (exhausted_line horizon ∷ [])) }
{
    text.extend_from_slice(b"; exhausted at horizon ")?;
    push_number(text, u64::from(horizon))?;
    text.extend_from_slice(b"\n")?;
    Ok(())
}

/// Appends how a race ended.
fn push_end(alloc: Global, end: &RaceEnd, text: &mut Vec<u8>) -> Result<(), Memory>
    ensures small { OnOk result (IsSmallEnd (end_view end.now)) }
    ensures line { OnOk result (text.new.items ≡ text.old.items ++ joined (end_line (end_view end.now) ∷ [])) }
{
    match end {
        RaceEnd::Plan { horizon, steps, .. } => {
            let actions = actions_of(alloc, steps.as_slice())?;
            push_plan(*horizon, actions.len(), text)
        }
        RaceEnd::Exhausted { horizon, .. } => push_exhausted(*horizon, text),
        RaceEnd::Unfinished { .. } => {
            text.extend_from_slice(b"; unfinished\n")?;
            Ok(())
        }
    }
}

/// Appends the steps of a plan, where there is one.
fn push_plan_lines(p: &Pddl, g: &Grounded, end: &RaceEnd, text: &mut Vec<u8>) -> Result<(), Memory>
    requires { HasActionsBelow (length g.now.calls) (end_view end.now) }
    ensures { OnOk result (text.new.items ≡ text.old.items ++ joined (plan_lines p.now g.now (end_view end.now))) }
{
    match end {
        RaceEnd::Plan { steps, .. } => push_steps(p, g, steps.as_slice(), text),
        RaceEnd::Exhausted { .. } => Ok(()),
        RaceEnd::Unfinished { .. } => Ok(()),
    }
}

/// The report of a race that the budget was given to: the lines of its horizons, its conflicts, how it ended, and the
/// calls of each step of a plan, as the end lists them. The only error is want of memory.
pub fn report_text(
    alloc: Global,
    pddl: &Pddl,
    grounded: &Grounded,
    end: &RaceEnd,
    budget: u64,
) -> Result<Text, Memory>
    requires actions { HasActionsBelow (length grounded.now.calls) (end_view end.now) }
    requires sums { conflicts_in (lines_in (end_view end.now)) < 2 ^ 64 }
    ensures text { IfOk result (λ text. text ≡ report_of pddl.now grounded.now budget (end_view end.now)) }
    ensures small { OnOk result (IsSmall budget (end_view end.now)) }
{
    let lines = lines(end);
    let mut text = Vec::new(alloc);
    push_horizons(lines, &mut text)?;
    push_conflicts(conflicts_of(lines), budget, &mut text)?;
    push_end(alloc, end, &mut text)?;
    push_plan_lines(pddl, grounded, end, &mut text)?;
    Ok(Text::of(text))
}

/// The text of a plan of so many steps, as a report has it: the line of the plan, and the calls of each step, as they are listed. The
/// only error is want of memory.
pub fn plan_text(
    alloc: Global,
    pddl: &Pddl,
    grounded: &Grounded,
    horizon: u32,
    steps: &[ActNumbers],
) -> Result<Text, Memory>
    requires { AllByRecursion (λ set. AllByRecursion (λ a. a < length grounded.now.calls) set) steps.now }
    ensures text { IfOk result (λ text. text ≡ plan_text pddl.now grounded.now horizon steps.now) }
    ensures small { OnOk result (IsSmallPlan horizon steps.now) }
{
    let actions = actions_of(alloc, steps)?;
    let mut text = Vec::new(alloc);
    push_plan(horizon, actions.len(), &mut text)?;
    push_steps(pddl, grounded, steps, &mut text)?;
    Ok(Text::of(text))
}

/// The conflicts of a race that the budget was given to and how it ended, without the lines of its horizons and without
/// the steps of a plan. The only error is want of memory.
pub fn summary_text(alloc: Global, end: &RaceEnd, budget: u64) -> Result<Text, Memory>
    requires { conflicts_in (lines_in (end_view end.now)) < 2 ^ 64 }
    ensures { IfOk result (λ text. text ≡ summary_of budget (end_view end.now)) }
{
    let mut text = Vec::new(alloc);
    push_conflicts(conflicts_of(lines(end)), budget, &mut text)?;
    push_end(alloc, end, &mut text)?;
    Ok(Text::of(text))
}
