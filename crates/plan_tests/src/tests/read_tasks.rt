// What is seen of tasks that were read.
use super::runs::holds;
use grounder::{Grounded, ground};
use gt_core::task::Task;
use pd_model::{Call, Effect, Objects, Pddl, Schema, Term, TypeDecl};
use pd_sexp::read_tree;
use pd_task::read_pddl;
use std::alloc::Global;
use std::process::Abort;

const BOTH: &[u8] =
    b"(define (domain d) (:predicates (p)) (:action both :effect (and (p) (not (p)))))";

const NOTHING_AT_FIRST: &[u8] = b"(define (problem x) (:init) (:goal (p)))";

const HIDING: &[u8] =
    b"(define (domain m) (:types a - b) (:predicates (p ?x)) (:action f :parameters (?x - a) :effect (forall (?x - b) (when (p ?x) (not (p ?x))))))";

const NO_GOALS: &[u8] = b"(define (problem p) (:goal ()))";

// The task of two texts.
fn task(rt: &impl Abort, alloc: Global, domain: &[u8], problem: &[u8]) -> Pddl {
    assert!(rt; domain.len() <= 1000 && problem.len() <= 1000);
    let domain = read_tree(alloc, domain).ok().expect(rt, "a domain");
    let problem = read_tree(alloc, problem).ok().expect(rt, "a problem");
    read_pddl(alloc, &domain, &problem)
        .ok()
        .expect(rt, "a task")
}

// The ground task of two texts.
fn grounded(rt: &impl Abort, alloc: Global, domain: &[u8], problem: &[u8]) -> Grounded {
    let read = task(rt, alloc, domain, problem);
    ground(alloc, &read)
        .ok()
        .expect(rt, "a task within the limits")
}

// In the one state where its one fact is false, the one action of a task makes it true.
fn turns_on(rt: &impl Abort, task: &Task) {
    assert!(rt; task.facts() == 1 && task.acts().len() == 1);
    let mut next = [false];
    let runs = task.next(&[false], 0, &mut next);
    holds(rt, runs && next[0], "an action that adds");
    holds(
        rt,
        task.holds(&next, 0) && !task.holds(&next, 1),
        "the state after it",
    );
}

// Where one action adds and deletes an atom, the add wins.
#[test]
fn adds_win(rt: HostRuntime) {
    let grounded = grounded(&rt, rt.alloc(), BOTH, NOTHING_AT_FIRST);
    turns_on(&rt, grounded.task());
}

// Whether the call of a schema without objects is one of a task.
fn is_call(alloc: Global, task: &Pddl, schema: u32) -> bool {
    let objects = Objects::of(Vec::new(alloc));
    task.is_call(&Call { schema, objects })
}

// A task with one action that has no parameter has the call of that action, and no other.
#[test]
fn calls_are_those_of_the_schemas(rt: HostRuntime) {
    let task = task(&rt, rt.alloc(), BOTH, NOTHING_AT_FIRST);
    holds(&rt, is_call(rt.alloc(), &task, 0), "the call of the action");
    holds(&rt, !is_call(rt.alloc(), &task, 1), "a call of no action");
}

// Whether the types have the parents 0, 2 and 0.
fn have_parents(types: &[TypeDecl]) -> bool {
    match types {
        [object, a, b] => object.parent == 0 && a.parent == 2 && b.parent == 0,
        _ => false,
    }
}

// Whether an effect deletes an atom of the variable of its `forall` under one condition.
fn deletes_it(effect: &Effect) -> bool {
    matches!(effect.over.as_slice(), [2])
        && effect.cond.as_slice().len() == 1
        && matches!(effect.atom.terms.as_slice(), [Term::Variable(1)])
        && !effect.adds
}

// Whether a schema of one parameter has one effect, and it is so.
fn hides(schema: &Schema) -> bool {
    match schema.effects.as_slice() {
        [effect] => matches!(schema.parameters.as_slice(), [1]) && deletes_it(effect),
        _ => false,
    }
}

fn is_hiding(task: &Pddl) -> bool {
    match task.schemas().as_slice() {
        [schema] => have_parents(task.types().as_slice()) && hides(schema),
        _ => false,
    }
}

// The variable of the `forall` has the number after the parameter's, and hides it.
#[test]
fn hides_the_outer_variable(rt: HostRuntime) {
    let task = task(&rt, rt.alloc(), HIDING, NO_GOALS);
    holds(&rt, is_hiding(&task), "a variable that hides another");
}
