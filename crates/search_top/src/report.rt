//! The text that tells what a walk came to.
ghost use Rattle.std.specs.Prelude.{◌≡◌, ◌<◌, ◌∷◌, ◌++◌, [], length, OnOk, IfOk};
ghost use Rattle.report_lines.specs.Lines.{joined};
ghost use Rattle.plan_report.specs.Report.{action_text};
ghost use Rattle.search_top.specs.Report.{outcome_of, states_line, plan_words, plan_line, end_lines, report_of, IsSmallEnd, IsSmallAnswer};
ghost use Rattle.search_top.specs.own.Below.{IsBelow};

use crate::ended::Outcome;
use crate::request::How;
use grounder::Grounded;
use pd_model::{Memory, Pddl};
use pl_io::Bytes;
use plan_report::{push_actions, push_call};
use report_lines::push_number;
use state_search::answer::{Answer, End};
use std::alloc::Global;

/// What a walk came to that ended so.
pub(crate) fn outcome_of(end: &End) -> Outcome
    ensures { result ≡ outcome_of end.now }
{
    match end {
        End::Plan(_) => Outcome::Planned,
        End::NoPlan => Outcome::NoPlan,
        End::Unfinished => Outcome::Unfinished,
    }
}

// Appends the line of the states.
fn push_states(states: u32, most: u32, text: &mut Vec<u8>) -> Result<(), Memory>
    ensures { OnOk result (text.new.items ≡ text.old.items ++ joined (states_line states most ∷ [])) }
{
    text.extend_from_slice(b"; states ")?;
    push_number(text, u64::from(states))?;
    text.extend_from_slice(b" of ")?;
    push_number(text, u64::from(most))?;
    text.extend_from_slice(b"\n")?;
    Ok(())
}

// What comes after the number of actions.
fn plan_words(how: How) -> &'static str
    ensures { result.now ≡ plan_words how }
{
    match how {
        How::Greedy => " actions",
        How::Least => " actions, the least",
    }
}

// Appends the line of a plan.
fn push_plan(how: How, actions: usize, text: &mut Vec<u8>) -> Result<(), Memory>
    ensures { OnOk result (text.new.items ≡ text.old.items ++ joined (plan_line how actions ∷ [])) }
{
    text.extend_from_slice(b"; plan of ")?;
    push_number(text, actions as u64)?;
    text.extend_from_slice(plan_words(how).as_bytes())?;
    text.extend_from_slice(b"\n")?;
    Ok(())
}

/// Appends the call of an action.
pub(crate) fn push_call_of(p: &Pddl, g: &Grounded, a: u32, text: &mut Vec<u8>) -> Result<(), Memory>
    requires { a < length g.now.calls }
    ensures { OnOk result (text.new.items ≡ text.old.items ++ action_text p.now g.now a) }
{
    push_call(p, g.call(a), text)
}

/// Appends the lines of how a walk ended.
pub(crate) fn push_end(
    p: &Pddl,
    g: &Grounded,
    how: How,
    end: &End,
    text: &mut Vec<u8>,
) -> Result<(), Memory>
    requires { IsBelow (length g.now.calls) end.now }
    ensures lines { OnOk result (text.new.items ≡ text.old.items ++ joined (end_lines p.now g.now how end.now)) }
    ensures small { OnOk result (IsSmallEnd end.now) }
{
    match end {
        End::Plan(actions) => {
            push_plan(how, actions.as_slice().len(), text)?;
            push_actions(p, g, actions.as_slice(), text)
        }
        End::NoPlan => {
            text.extend_from_slice(b"; no plan of any length\n")?;
            Ok(())
        }
        End::Unfinished => {
            text.extend_from_slice(b"; unfinished\n")?;
            Ok(())
        }
    }
}

/// The text of what a walk came to that might enter so many states.
pub(crate) fn report_of(
    alloc: Global,
    p: &Pddl,
    g: &Grounded,
    how: How,
    most: u32,
    answer: &Answer,
) -> Result<Bytes, Memory>
    requires { IsBelow (length g.now.calls) answer.now.end }
    ensures text { IfOk result (λ text. text ≡ report_of p.now g.now how most answer.now) }
    ensures small { OnOk result (IsSmallAnswer most answer.now) }
{
    let mut text = Vec::new(alloc);
    push_states(answer.states, most, &mut text)?;
    push_end(p, g, how, &answer.end, &mut text)?;
    Ok(Bytes::of(text))
}
