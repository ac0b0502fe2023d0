//! What actions need and do, copied flat, so that little memory is read from one state to the next.

ghost use Rattle.std.specs.Prelude.{◌≡◌, ℕ, ◌+◌, ◌*◌, ◌<◌, Some, true, false, length, slice_get, slice_index_or, IfOk};
ghost use Rattle.successors.specs.Moves.{AreMade, IsAdded, IsMoves};
ghost use Rattle.successors.specs.own.Noted.{noted};

use containers::FlatLists;
use containers::memory::Memory;
use gt_core::act::Act;
use gt_core::eff::Eff;
use gt_core::task::Task;
use std::alloc::Global;

/// For each action whether none of its effects has a condition, and three lists: the literals that it needs, and, where none has, the
/// facts that it deletes, and those that it adds.
#[derive(Drop)]
pub struct Moves {
    pub(crate) plain: Vec<bool>,
    pub(crate) lists: FlatLists<u32>,
}

/// Gathers the fact of an effect whose literal leaves so much when divided by two: 0 where it adds, 1 where it deletes.
fn note(effect: &Eff, rest: u32, into: &mut Vec<u32>) -> Result<(), Memory>
    ensures { IfOk result (λ done. into.new.items ≡ noted rest effect.now into.old.items) }
{
    if effect.lit() % 2 == rest {
        into.push(effect.lit() / 2)?;
    }
    Ok(())
}

/// Gathers the facts that effects delete, and those that they add. Tells whether none of the effects has a condition, and all are of so
/// many facts.
fn gather(
    effects: &[Eff],
    facts: u32,
    deletes: &mut Vec<u32>,
    adds: &mut Vec<u32>,
) -> Result<bool, Memory>
    ensures deletes { IfOk result (λ plain. plain ≡ true → AreMade facts effects.now 1 deletes.new.items) }
    ensures adds { IfOk result (λ plain. plain ≡ true → AreMade facts effects.now 0 adds.new.items) }
{
    deletes.clear();
    adds.clear();
    for effect in effects {
        if effect.is_conditional() || effect.lit() / 2 >= facts {
            return Ok(false);
        }
        note(effect, 1, deletes)?;
        note(effect, 0, adds)?;
    }
    Ok(true)
}

impl Moves {
    /// Adds an action. `deletes` and `adds` are room for its facts.
    fn add(
        &mut self,
        act: &Act,
        facts: u32,
        deletes: &mut Vec<u32>,
        adds: &mut Vec<u32>,
    ) -> Result<(), Memory>
        ensures { IfOk result (λ done. IsAdded facts act.now self.old self.new) }
    {
        let plain = gather(act.effects(), facts, deletes, adds)?;
        self.plain.push(plain)?;
        self.lists.push(act.pre())?;
        self.lists.push(deletes.as_slice())?;
        self.lists.push(adds.as_slice())?;
        Ok(())
    }

    /// What the actions of a task need and do.
    pub fn new(alloc: Global, task: &Task) -> Result<Moves, Memory>
        ensures { IfOk result (λ m. IsMoves task.now m) }
    {
        let mut moves = Moves {
            plain: Vec::new(alloc),
            lists: FlatLists::new(alloc),
        };
        let mut deletes = Vec::new(alloc);
        let mut adds = Vec::new(alloc);
        for act in task.acts() {
            moves.add(act, task.facts(), &mut deletes, &mut adds)?;
        }
        Ok(moves)
    }

    /// Whether none of an action's effects has a condition.
    #[inline(always)]
    pub fn is_plain(&self, act: u32) -> bool
        requires { act < length self.now.plain.items }
        ensures { result ≡ slice_index_or self.now.plain.items act false }
    {
        self.plain[act as usize]
    }

    /// The literals that an action needs.
    #[inline(always)]
    pub fn needs(&self, act: u32) -> &[u32]
        requires { 3 * act < length self.now.lists }
        ensures { slice_get self.now.lists (3 * act) ≡ Some result.now }
    {
        self.lists.at(3 * act as usize)
    }

    /// The facts that an action deletes.
    #[inline(always)]
    pub fn deletes(&self, act: u32) -> &[u32]
        requires { 3 * act + 1 < length self.now.lists }
        ensures { slice_get self.now.lists (3 * act + 1) ≡ Some result.now }
    {
        self.lists.at(3 * act as usize + 1)
    }

    /// The facts that an action adds.
    #[inline(always)]
    pub fn adds(&self, act: u32) -> &[u32]
        requires { 3 * act + 2 < length self.now.lists }
        ensures { slice_get self.now.lists (3 * act + 2) ≡ Some result.now }
    {
        self.lists.at(3 * act as usize + 2)
    }
}
