ghost use Rattle.std.specs.Prelude.{◌≡◌, [], ◌/◌, ◌<◌, ◌≤◌, IfOk, OnOk};
ghost use Rattle.clause_base.specs.Clause.{has_literal};
ghost use Rattle.containers.specs.Rising.{put};

use bit_sets::marks::Marks;
use clause_base::literal::Lit;
use containers::memory::Memory;
use std::alloc::Global;
use std::marker::Model;

/// The literals that are taken as false, over so many variables. Taking a literal as false, asking for one and forgetting one
/// each cost a single step.
#[derive(Drop)]
pub struct Falsified {
    variables: u32,
    marks: Marks,
}

impl Model for Falsified {
    ghost use Rattle.std.specs.Prelude.{◌≡◌, ◌*◌, length};
    ghost use Rattle.bit_sets.specs.Marks.{places};
    ghost use Rattle.rup_check.specs.own.Falsified.{FalsifiedView};

    ghost Value = { FalsifiedView };

    ghost view = { λ f. record { variables = f.variables; falsified = places 0 f.marks } };

    ghost invariant = { λ f. length f.marks ≡ 2 * f.variables };
}

impl Falsified {
    /// No literal is taken as false, over so many variables.
    pub fn new(alloc: Global, variables: u32) -> Result<Falsified, Memory>
        requires { variables ≤ 2147483647 }
        ensures { IfOk result (λ f. f ≡ record { variables = variables; falsified = [] }) }
    {
        Ok(Falsified {
            variables,
            marks: Marks::new(alloc, variables)?,
        })
    }

    /// Whether the literal is taken as false.
    pub fn is_false(&self, lit: Lit) -> bool
        requires { lit / 2 < self.now.variables }
        ensures { result ≡ has_literal self.now.falsified lit }
    {
        self.marks.has(lit.0)
    }

    /// Takes the literal as false.
    pub fn falsify(&mut self, lit: Lit) -> Result<(), Memory>
        requires { lit / 2 < self.old.variables }
        ensures falsified { OnOk result (self.new.falsified ≡ put self.old.falsified lit) }
        ensures variables { self.new.variables ≡ self.old.variables }
    {
        self.marks.put(lit.0)
    }

    /// Takes no literal as false any more. Only those that were are looked at.
    pub fn clear(&mut self)
        ensures { self.new ≡ record self.old { falsified = [] } }
    {
        self.marks.clear();
    }
}
