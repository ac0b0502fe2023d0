//! The literals that were reached, in the order in which they were.

use containers::memory::Memory;
use std::alloc::Global;
use std::marker::Model;

/// Literals of so many facts, each at most once, in the order in which they were added. It goes back to fewer of them at once: where
/// a literal stands is kept beside them, and holds only where the literal there is the same.
pub struct Trail {
    facts: u32,
    places: Vec<u32>,
    literals: Vec<u32>,
}

impl Model for Trail {
    ghost use Rattle.std.specs.Prelude.{◌≡◌, ◌≤◌, ◌*◌, length};
    ghost use Rattle.gt_core.specs.Limits.{most_facts};
    ghost use Rattle.never_check.specs.Trail.{Reached, ArePlaced};

    ghost Value = { Reached };

    ghost view = { λ t. record { facts = t.facts; literals = t.literals.items } };

    ghost invariant = { λ t. ArePlaced t.places.items t.literals.items × (length t.places.items ≡ 2 * t.facts) × (t.facts ≤ most_facts) };
}

/// Letting one go is one call, in which its parts go.
impl Drop for Trail {
    fn drop(self) {
        let Trail {
            facts: _,
            places: _,
            literals: _,
        } = self;
    }
}

ghost use Rattle.std.specs.Prelude.{◌≡◌, ◌<◌, length};
ghost use Rattle.gt_core.specs.Literal.{is_in};
ghost use Rattle.never_check.specs.Trail.{ArePlaced};

/// Whether a literal stands among others, at its place.
fn stands(places: &[u32], literals: &[u32], lit: u32) -> bool
    requires placed { ArePlaced places.now literals.now }
    requires lit { lit < length places.now }
    ensures { result ≡ is_in literals.now lit }
{
    let place = places[lit as usize] as usize;
    place < literals.len() && literals[place] == lit
}

impl Trail {
    ghost use Rattle.std.specs.Prelude.{◌≡◌, ◌<◌, ◌≤◌, ◌*◌, ◌++◌, ◌∷◌, [], take, false, length, slice_index, IfOk, OnOk, OnErr};
    ghost use Rattle.gt_core.specs.{Limits.most_facts, Literal.is_in};
    ghost use Rattle.never_check.specs.Trail.{Reached};

    /// No literals yet, of those of so many facts.
    pub fn new(alloc: Global, facts: u32) -> Result<Trail, Memory>
        requires { facts ≤ most_facts }
        ensures { IfOk result (λ trail. trail ≡ record { facts = facts; literals = [] }) }
    {
        Ok(Trail {
            facts,
            places: vec![in alloc; 0; 2 * facts as usize]?,
            literals: Vec::new(alloc),
        })
    }

    /// Whether a literal was reached.
    pub fn has(&self, lit: u32) -> bool
        requires { lit < 2 * self.now.facts }
        ensures { result ≡ is_in self.now.literals lit }
    {
        stands(&self.places, &self.literals, lit)
    }

    /// How many were reached, each at most once.
    pub fn len(&self) -> usize
        ensures is { result ≡ length self.now.literals }
        ensures few { result ≤ 2 * self.now.facts }
        ensures small { self.now.facts ≤ most_facts }
    {
        self.literals.len()
    }

    /// The literal at a place, from 0.
    pub fn at(&self, place: usize) -> u32
        requires { place < length self.now.literals }
        ensures is { result ≡ slice_index self.now.literals place }
        ensures below { result < 2 * self.now.facts }
    {
        self.literals[place]
    }

    /// Adds a literal that was not reached yet. After want of memory the trail is as it was.
    pub fn push(&mut self, lit: u32) -> Result<(), Memory>
        requires lit { lit < 2 * self.old.facts }
        requires new { is_in self.old.literals lit ≡ false }
        ensures facts { self.new.facts ≡ self.old.facts }
        ensures ok { OnOk result (self.new.literals ≡ self.old.literals ++ lit ∷ []) }
    {
        let place = self.literals.len();
        self.places[lit as usize] = place as u32;
        self.literals.push(lit)?;
        Ok(())
    }

    /// Goes back to so many literals.
    pub fn go_back(&mut self, len: usize)
        requires { len ≤ length self.old.literals }
        ensures { self.new ≡ record { facts = self.old.facts; literals = take len self.old.literals } }
    {
        self.literals.truncate(len);
    }
}
