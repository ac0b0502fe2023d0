// Atoms: with variables in a schema, ground in a state.
use crate::{Memory, Objects};
use containers::ListOf;
use std::alloc::Global;

/// An object by its number, or a variable by its place: the parameters of the action come first, from
/// 0, and then the variables of the `forall` that it stands under.
#[derive(Clone, Copy, PartialEq, Eq)]
pub enum Term {
    Object(u32),
    Variable(u32),
}

/// Terms, from the left.
pub type Terms = ListOf<Term>;

/// An atom whose terms may be variables.
#[derive(Drop)]
pub struct Pattern {
    /// The number of its predicate.
    pub predicate: u32,
    /// Its terms, from the left.
    pub terms: Terms,
}

/// A ground atom.
#[derive(PartialEq, Eq, PartialOrd, Ord, Drop)]
pub struct Atom {
    /// The number of its predicate.
    pub predicate: u32,
    /// The numbers of its objects, from the left.
    pub objects: Objects,
}

impl Atom {
    ghost use Rattle.std.specs.Prelude.{◌≡◌, IfOk};

    /// The same atom, in memory of its own.
    pub fn copied(&self, alloc: Global) -> Result<Atom, Memory>
        ensures { IfOk result (λ copy. copy ≡ self.now) }
    {
        let objects = Objects::of(Vec::from_slice(alloc, self.objects.as_slice())?);
        Ok(Atom {
            predicate: self.predicate,
            objects,
        })
    }
}

/// Ground atoms, in the order of the file.
pub type Atoms = ListOf<Atom>;
