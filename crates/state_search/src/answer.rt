//! What a walk answers.

ghost use Rattle.std.specs.Prelude.{◌≡◌, length};
ghost use Rattle.state_search.specs.Answer.{IsAnswer, IsEnd};
ghost use Rattle.state_search.specs.own.Walk.{IsWalk};

use containers::ListOf;
use gt_core::task::Task;
use search_laws::laws::laws;
use state_store::store::Store;

/// Numbers of actions, which run one after the other.
pub type Actions = ListOf<u32>;

/// How a walk ended: with a plan, or as no plan of any length is one, or as no more states may be entered.
#[derive(Drop)]
pub enum End {
    Plan(Actions),
    NoPlan,
    Unfinished,
}

/// How many states were entered, and how the walk ended.
#[derive(Drop)]
pub struct Answer {
    pub states: u32,
    pub end: End,
}

/// The answer of a walk that ended so.
pub(crate) fn answer_of(task: &Task, store: &Store, end: End) -> Answer
    requires walk { IsWalk task.now store.now }
    requires ends { IsEnd task.now store.now.most (length store.now.states) end }
    ensures answer { IsAnswer task.now store.now.most result }
    ensures end { result.end ≡ end }
{
    laws();
    // For the proof: the task is lawful.
    let _facts = task.facts();
    Answer {
        states: store.len(),
        end,
    }
}
