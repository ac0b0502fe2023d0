//! Walks one after the other, each with a share of the states.

ghost use Rattle.std.specs.Prelude.{◌≡◌, ℕ, ◌<◌, ◌≤◌, true, IfOk};
ghost use Rattle.gt_core.specs.Task.{Task as TaskValue};
ghost use Rattle.state_search.specs.Answer.{IsAnswer};
ghost use Rattle.state_search.specs.Room.{IsRoom};

use containers::memory::Memory;
use gt_core::task::Task;
use novelty::proposer::Novelty;
use relaxed_plans::proposer::RelaxedPlans;
use relaxed_plans::reached::Reached;
use state_search::answer::{Answer, End};
use state_search::follow::follow_in;
use state_search::room::Room;
use state_search::shorten::shorten;
use std::alloc::Global;

/// How many states the first walk by relaxed plans may enter, and how many times as many the next one.
const FIRST: u32 = 2_000;

const GROWTH: u32 = 8;

/// How many times as many states a walk by novelty may enter, whose states cost less time.
const NOVELTY: u32 = 16;

/// Those who lead walks.
#[derive(Drop)]
struct Leads {
    novelty: Novelty,
    relaxed_plans: RelaxedPlans,
    reached: Reached,
}

/// Who leads a walk.
#[derive(Clone, Copy)]
enum Lead {
    Novelty,
    RelaxedPlans,
    Reached,
}

/// A walk that enters so many states at most.
fn walk(
    alloc: Global,
    task: &Task,
    room: &mut Room,
    leads: &mut Leads,
    lead: Lead,
    share: u32,
) -> Result<Answer, Memory>
    requires some { 0 < share }
    requires size { share ≤ room.old.store.room }
    requires room { IsRoom task.now room.old }
    ensures answer { IfOk result (λ a. IsAnswer task.now share a) }
    ensures room { IfOk result (λ a. IsRoom task.now room.new) }
    ensures size { IfOk result (λ a. room.new.store.room ≡ room.old.store.room) }
{
    match lead {
        Lead::Novelty => {
            leads.novelty.clear();
            follow_in(alloc, task, room, share, &mut leads.novelty)
        }
        Lead::RelaxedPlans => {
            leads.relaxed_plans.clear();
            follow_in(alloc, task, room, share, &mut leads.relaxed_plans)
        }
        Lead::Reached => {
            leads.reached.clear();
            follow_in(alloc, task, room, share, &mut leads.reached)
        }
    }
}

/// Whether a walk found a plan, or that there is none: more states would not tell more.
fn is_settled(answer: &Answer) -> bool
    ensures { (task : TaskValue) (share most : ℕ) → result ≡ true → IsAnswer task share answer.now → IsAnswer task most answer.now }
{
    match &answer.end {
        End::Plan(_) => true,
        End::NoPlan => true,
        End::Unfinished => false,
    }
}

/// The walks in their order until one is settled, the last one of so many states at most.
fn round(
    alloc: Global,
    task: &Task,
    room: &mut Room,
    leads: &mut Leads,
    share: u32,
    most: u32,
) -> Result<Answer, Memory>
    requires some { 0 < share }
    requires within { share ≤ most }
    requires size { most ≤ room.old.store.room }
    requires room { IsRoom task.now room.old }
    ensures answer { IfOk result (λ a. IsAnswer task.now share a) }
    ensures room { IfOk result (λ a. IsRoom task.now room.new) }
    ensures size { IfOk result (λ a. room.new.store.room ≡ room.old.store.room) }
{
    let more = share.saturating_mul(NOVELTY).min(most);
    let answer = walk(alloc, task, room, leads, Lead::Novelty, more)?;
    if is_settled(&answer) {
        return Ok(answer);
    }
    let answer = walk(alloc, task, room, leads, Lead::RelaxedPlans, share)?;
    if is_settled(&answer) {
        return Ok(answer);
    }
    walk(alloc, task, room, leads, Lead::Reached, share)
}

/// Rounds until one is settled, the last one with all states.
fn rounds(
    alloc: Global,
    task: &Task,
    room: &mut Room,
    leads: &mut Leads,
    most: u32,
) -> Result<Answer, Memory>
    requires some { 0 < most }
    requires size { most ≤ room.old.store.room }
    requires room { IsRoom task.now room.old }
    ensures { IfOk result (λ a. IsAnswer task.now most a) }
{
    let mut share = FIRST.min(most);
    for _round in 0..16 {
        if share == most {
            break;
        }
        let answer = round(alloc, task, room, leads, share, most)?;
        if is_settled(&answer) {
            return Ok(answer);
        }
        share = share.saturating_mul(GROWTH).min(most);
    }
    round(alloc, task, room, leads, most, most)
}

/// A plan, or that there is none of any length, by entering so many states at most in each walk. A plan has no action that is not
/// needed where the later ones are kept. The memory of all walks is taken before the first one.
pub fn greedy(alloc: Global, task: &Task, most: u32) -> Result<Answer, Memory>
    requires { 0 < most }
    ensures { IfOk result (λ a. IsAnswer task.now most a) }
{
    let mut room = Room::new(alloc, task, most)?;
    let mut leads = Leads {
        novelty: Novelty::new(alloc, task, most)?,
        relaxed_plans: RelaxedPlans::new(alloc, task, most)?,
        reached: Reached::new(alloc, task, most)?,
    };
    let answer = rounds(alloc, task, &mut room, &mut leads, most)?;
    let states = answer.states;
    match answer.end {
        End::Plan(actions) => Ok(Answer {
            states,
            end: End::Plan(shorten(alloc, task, actions)?),
        }),
        end => Ok(Answer { states, end }),
    }
}
