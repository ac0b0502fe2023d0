// States: sorted sets of ground atoms.
ghost use Rattle.std.specs.Prelude.{◌≡◌, ◌++◌, ◌∷◌, [], OnOk, not};
ghost use Rattle.std.specs.List.{filter};
ghost use Rattle.pd_model.specs.State.{is_in, same_atom, SameState};

use crate::{Atom, Memory};
use std::alloc::Global;
use std::collections::BTreeSet;
use std::marker::Model;

/// A set of ground atoms, in which one is looked up in logarithmic time.
#[derive(Drop)]
pub struct State {
    alloc: Global,
    atoms: BTreeSet<Atom>,
}

impl Model for State {
    ghost use Rattle.std.specs.Prelude.{List};
    ghost use Rattle.pd_model.specs.declared.atoms.Atom.{Atom};

    ghost Value = { List Atom };

    ghost view = { λ s. s.atoms.keys };
}

impl State {
    /// The state in which no atom is true.
    pub fn new(alloc: Global) -> Self
        ensures { result ≡ [] }
    {
        State {
            alloc,
            atoms: BTreeSet::new(alloc),
        }
    }

    /// Whether the atom is true.
    pub fn has(&self, atom: &Atom) -> bool
        ensures { result ≡ is_in atom.now self.now }
    {
        self.atoms.contains(atom)
    }

    /// Makes the atom true.
    pub fn add(&mut self, atom: Atom) -> Result<(), Memory>
        ensures { OnOk result (SameState self.new (atom ∷ self.old)) }
    {
        self.atoms.insert(atom)?;
        Ok(())
    }

    /// Makes the atom false.
    pub fn remove(&mut self, atom: &Atom)
        ensures { SameState self.new (filter (λ a. not (same_atom atom.now a)) self.old) }
    {
        self.atoms.remove(atom);
    }

    /// Makes the atoms true.
    pub fn add_all(&mut self, atoms: &[Atom]) -> Result<(), Memory>
        ensures { OnOk result (SameState self.new (atoms.now ++ self.old)) }
    {
        for atom in atoms {
            self.add(atom.copied(self.alloc)?)?;
        }
        Ok(())
    }

    /// Makes the atoms of another state true.
    pub fn unite(&mut self, mut other: State) -> Result<(), Memory>
        ensures { OnOk result (SameState self.new (other ++ self.old)) }
    {
        while let Some(atom) = other.atoms.pop_first() {
            self.add(atom)?;
        }
        Ok(())
    }

    /// Makes the atoms of another state false.
    pub fn subtract(&mut self, mut other: State)
        ensures { SameState self.new (filter (λ a. not (is_in a other)) self.old) }
    {
        while let Some(atom) = other.atoms.pop_first() {
            self.remove(&atom);
        }
    }
}
