//! The text that tells what came of it where it was tried to show that there is no plan of any length.
ghost use Rattle.std.specs.Prelude.{◌≡◌, ◌<◌, ◌*◌, ◌++◌, ◌∷◌, [], length, decimal, OnOk, IfOk};
ghost use Rattle.search_top.specs.Literals.{literal_text};
ghost use Rattle.search_top.specs.Never.{exclusion_line, finding_by, ended_excluded, numbered, judgement_line, finding_of, ended_judged};
ghost use Rattle.search_top.specs.own.Below.{HasActions};
ghost use Rattle.search_top.specs.own.Exclusions.{HasLiterals};

use crate::ended::{Ended, Finding};
use crate::hopeless::push_hopeless;
use crate::judged::Judgement;
use crate::report::push_call_of;
use grounder::Grounded;
use never_check::excluded::Exclusion;
use pd_model::{Memory, Pddl};
use pl_io::Bytes;
use plan_report::push_atom;
use report_lines::push_number;
use std::alloc::Global;

// Appends a fact literal.
fn push_literal(p: &Pddl, g: &Grounded, lit: u32, text: &mut Vec<u8>) -> Result<(), Memory>
    requires { lit < 2 * length g.now.facts }
    ensures { OnOk result (text.new.items ≡ text.old.items ++ literal_text p.now g.now lit) }
{
    if lit % 2 == 0 {
        push_atom(p, g.fact(lit / 2), text)?;
    } else {
        text.extend_from_slice(b"(not ")?;
        push_atom(p, g.fact(lit / 2), text)?;
        text.extend_from_slice(b")")?;
    }
    Ok(())
}

// Appends the line that tells that a goal is open, or by what it is excluded, without its end.
fn push_exclusion(
    alloc: Global,
    p: &Pddl,
    g: &Grounded,
    by: &Exclusion,
    text: &mut Vec<u8>,
) -> Result<(), Memory>
    requires literals { HasLiterals (length g.now.facts) by.now }
    requires facts { length g.now.facts ≡ g.now.task.facts }
    ensures { OnOk result (text.new.items ≡ text.old.items ++ exclusion_line p.now g.now by.now) }
{
    match by {
        Exclusion::Open => text.extend_from_slice(b"; open")?,
        Exclusion::Hopeless => {
            text.extend_from_slice(b"; no plan of any length: goal ")?;
            push_hopeless(alloc, p, g, text)?;
            text.extend_from_slice(b" is never true")?;
        }
        Exclusion::One(lit) => {
            text.extend_from_slice(b"; no plan of any length: goal ")?;
            push_literal(p, g, *lit, text)?;
            text.extend_from_slice(b" is never true")?;
        }
        Exclusion::Two(lit, other) => {
            text.extend_from_slice(b"; no plan of any length: the goal is excluded by ")?;
            push_literal(p, g, *lit, text)?;
            text.extend_from_slice(b" and ")?;
            push_literal(p, g, *other, text)?;
        }
    }
    Ok(())
}

// What comes of it.
fn finding_by(by: &Exclusion) -> Finding
    ensures { result ≡ finding_by by.now }
{
    match by {
        Exclusion::Open => Finding::Open,
        Exclusion::Hopeless | Exclusion::One(_) | Exclusion::Two(..) => Finding::NoPlan,
    }
}

/// How a run ends with that by which a goal is excluded.
pub(crate) fn ended_excluded(
    alloc: Global,
    p: &Pddl,
    g: &Grounded,
    by: Exclusion,
) -> Result<Ended, Memory>
    requires literals { HasLiterals (length g.now.facts) by }
    requires facts { length g.now.facts ≡ g.now.task.facts }
    ensures { IfOk result (λ end. end ≡ ended_excluded p.now g.now by) }
{
    let mut text = Vec::new(alloc);
    push_exclusion(alloc, p, g, &by, &mut text)?;
    text.extend_from_slice(b"\n")?;
    Ok(Ended::Shown {
        finding: finding_by(&by),
        text: Bytes::of(text),
    })
}

// Appends a text, and the number of a clause, where there is one.
fn push_numbered(front: &[u8], clause: Option<u32>, text: &mut Vec<u8>) -> Result<(), Memory>
    ensures { OnOk result (text.new.items ≡ text.old.items ++ numbered front.now clause) }
{
    text.extend_from_slice(front)?;
    if let Some(clause) = clause {
        text.extend_from_slice(b" ")?;
        push_number(text, u64::from(clause) + 1)?;
    }
    Ok(())
}

// Appends a text and a number.
fn push_counted(front: &[u8], number: u64, text: &mut Vec<u8>) -> Result<(), Memory>
    ensures { OnOk result (text.new.items ≡ text.old.items ++ (front.now ++ decimal number)) }
{
    text.extend_from_slice(front)?;
    push_number(text, number)?;
    Ok(())
}

// Appends the line that tells what is said of a certificate, without its end.
fn push_judgement(p: &Pddl, g: &Grounded, said: Judgement, text: &mut Vec<u8>) -> Result<(), Memory>
    requires { HasActions (length g.now.calls) said }
    ensures { OnOk result (text.new.items ≡ text.old.items ++ judgement_line p.now g.now said) }
{
    match said {
        Judgement::Faulty { at } => push_counted(b"; refused syntax certificate ", at, text),
        Judgement::Clauses(count) => push_counted(
            b"; no plan of any length, clauses ",
            u64::from(count),
            text,
        ),
        Judgement::Weights => {
            text.extend_from_slice(b"; no plan of any length, weights")?;
            Ok(())
        }
        Judgement::Initial(clause) => push_numbered(b"; rejected initial", clause, text),
        Judgement::Goal(clause) => push_numbered(b"; rejected goal", clause, text),
        Judgement::Pair { clause, action } => {
            push_counted(b"; rejected clause ", u64::from(clause) + 1, text)?;
            text.extend_from_slice(b" action ")?;
            push_call_of(p, g, action, text)?;
            Ok(())
        }
        Judgement::Action(action) => {
            text.extend_from_slice(b"; rejected action ")?;
            push_call_of(p, g, action, text)?;
            Ok(())
        }
    }
}

// What comes of it.
fn finding_of(said: Judgement) -> Finding
    ensures { result ≡ finding_of said }
{
    match said {
        Judgement::Faulty { .. } => Finding::Refused,
        Judgement::Clauses(_) | Judgement::Weights => Finding::NoPlan,
        Judgement::Initial(_) | Judgement::Goal(_) => Finding::Rejected,
        Judgement::Pair { .. } | Judgement::Action(_) => Finding::Rejected,
    }
}

/// How a run ends with what is said of a certificate.
pub(crate) fn ended_judged(
    alloc: Global,
    p: &Pddl,
    g: &Grounded,
    said: Judgement,
) -> Result<Ended, Memory>
    requires { HasActions (length g.now.calls) said }
    ensures { IfOk result (λ end. end ≡ ended_judged p.now g.now said) }
{
    let mut text = Vec::new(alloc);
    push_judgement(p, g, said, &mut text)?;
    text.extend_from_slice(b"\n")?;
    Ok(Ended::Shown {
        finding: finding_of(said),
        text: Bytes::of(text),
    })
}
