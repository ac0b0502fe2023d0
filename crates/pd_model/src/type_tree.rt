// The tree of types.
ghost use Rattle.std.specs.Prelude.{◌≡◌, ◌<◌, ◌^◌, ℕ, IfOk, length, slice_index};
ghost use Rattle.pd_model.specs.Types.{parents_of};
ghost use Rattle.pd_model.specs.own.TypeTree.{is_between, IsTypeTree};
ghost use Rattle.pd_model.specs.own.Walk.{AreRooted};

use crate::walk::Walk;
use crate::{Memory, TypeDecl};
use std::alloc::Global;

/// The numbers at which a walk in depth enters and leaves the types. The types at or under one are those that are
/// entered while it is open, so that a test of two types takes constant time.
#[derive(Drop)]
pub struct TypeTree {
    pub entries: Vec<usize>,
    pub exits: Vec<usize>,
}

fn number_at(numbers: &[usize], i: u32) -> usize
    ensures { result ≡ slice_index numbers.now i }
{
    match numbers.get(i as usize) {
        Some(number) => *number,
        None => 0,
    }
}

impl TypeTree {
    /// The tree of the types, in time that is linear in them.
    pub fn of(alloc: Global, types: &[TypeDecl]) -> Result<TypeTree, Memory>
        requires rooted { AreRooted (parents_of types.now) }
        requires few { length types.now < 2 ^ 32 }
        ensures { IfOk result (λ t. IsTypeTree (parents_of types.now) t.entries.items t.exits.items) }
    {
        let mut walk = Walk::start(alloc, types)?;
        while walk.step(types) {}
        let Walk { entries, exits, .. } = walk;
        Ok(TypeTree { entries, exits })
    }

    /// The number at which a type is entered.
    pub fn entry(&self, kind: u32) -> usize
        ensures { result ≡ slice_index self.now.entries.items kind }
    {
        number_at(&self.entries, kind)
    }

    /// The number at which a type is left.
    pub fn exit(&self, kind: u32) -> usize
        ensures { result ≡ slice_index self.now.exits.items kind }
    {
        number_at(&self.exits, kind)
    }

    /// Whether a type is entered while another is open.
    pub fn is_between(&self, kind: u32, above: u32) -> bool
        ensures { result ≡ is_between self.now.entries.items self.now.exits.items kind above }
    {
        self.entry(above) <= self.entry(kind) && self.entry(kind) < self.exit(above)
    }
}
