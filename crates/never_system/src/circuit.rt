//! Circuits of gates that are numbered as they are written.

use crate::gate::put_gate;
use crate::wires::opposite;
use containers::memory::Memory;
use std::alloc::Global;
use std::marker::Model;

/// The gates so far and their text, beside the wires of effects and the text of the latches.
pub struct Circuit {
    before: u64,
    count: u64,
    gates: Vec<u8>,
    makers: Vec<(u32, u64)>,
    latches: Vec<u8>,
}

impl Model for Circuit {
    ghost use Rattle.std.specs.Prelude.{◌+◌, ◌*◌, ◌≤◌, length};
    ghost use Rattle.gt_core.specs.Limits.{most_facts};
    ghost use Rattle.never_system.specs.Aiger.{Circuit};

    ghost Value = { Circuit };

    ghost view = { λ c. record { before = c.before; count = c.count; gates = c.gates.items; makers = c.makers.items; latches = c.latches.items } };

    // A gate takes three bytes or more, so that the number of a wire has 64 bits.
    ghost invariant = { λ c. (3 * c.count ≤ length c.gates.items) × (c.before ≤ most_facts + 14) };
}

/// All parts are let go in one call, so that a proof has one step for it and not one for each part.
impl Drop for Circuit {
    fn drop(self) {
        let Circuit {
            before: _,
            count: _,
            gates: _,
            makers: _,
            latches: _,
        } = self;
    }
}

impl Circuit {
    ghost use Rattle.std.specs.Prelude.{◌≡◌, ◌+◌, ◌≤◌, IfOk, OnOk};
    ghost use Rattle.gt_core.specs.Limits.{most_facts};
    ghost use Rattle.never_system.specs.Aiger.{begun, next_wire, with_gate, join, joined, with_maker, unmade, with_latch};

    /// A circuit without gates, after so many variables.
    #[tactic(auto, unfolding(crate::specs::Aiger::begun))]
    pub fn new(alloc: Global, before: u64) -> Circuit
        requires { before ≤ most_facts + 14 }
        ensures { result ≡ begun before }
    {
        Circuit {
            before,
            count: 0,
            gates: Vec::new(alloc),
            makers: Vec::new(alloc),
            latches: Vec::new(alloc),
        }
    }

    /// How many variables inputs, latches and gates have together.
    pub fn variables(&self) -> u64
        ensures { result ≡ self.now.before + self.now.count }
    {
        self.before + self.count
    }

    /// How many gates there are.
    pub fn count(&self) -> u64
        ensures { result ≡ self.now.count }
    {
        self.count
    }

    /// Their text.
    pub fn gates(&self) -> &[u8]
        ensures { result.now ≡ self.now.gates }
    {
        self.gates.as_slice()
    }

    /// The text of the latches.
    pub fn latches(&self) -> &[u8]
        ensures { result.now ≡ self.now.latches }
    {
        self.latches.as_slice()
    }

    /// A gate that joins two wires; its wire.
    #[tactic(auto, unfolding(crate::specs::Aiger::with_gate, crate::specs::Aiger::next_wire))]
    fn gate(&mut self, x: u64, y: u64) -> Result<u64, Memory>
        ensures gate { OnOk result (self.new ≡ with_gate self.old x y) }
        ensures wire { IfOk result (λ w. w ≡ next_wire self.old) }
    {
        let wire = 2 * (self.before + self.count + 1);
        put_gate(&mut self.gates, wire, x, y)?;
        self.count += 1;
        Ok(wire)
    }

    /// Gates that join one wire after another to a first one; the wire that is true where all of them are.
    pub fn join(&mut self, first: u64, wires: &[u64]) -> Result<u64, Memory>
        ensures gates { OnOk result (self.new ≡ join self.old first wires.now) }
        ensures wire { IfOk result (λ w. w ≡ joined self.old first wires.now) }
    {
        let mut all = first;
        for wire in wires {
            all = self.gate(all, *wire)?;
        }
        Ok(all)
    }

    /// Notes the wire that is true where an effect with a literal is active.
    #[tactic(auto, unfolding(crate::specs::Aiger::with_maker))]
    pub fn note(&mut self, lit: u32, wire: u64) -> Result<(), Memory>
        ensures { OnOk result (self.new ≡ with_maker self.old lit wire) }
    {
        self.makers.push((lit, wire))?;
        Ok(())
    }

    /// The negated wires of the effects with a literal.
    pub fn unmade(&self, alloc: Global, lit: u32) -> Result<Vec<u64>, Memory>
        ensures { IfOk result (λ list. list.items ≡ unmade lit self.now.makers) }
    {
        let mut list = Vec::new(alloc);
        for maker in &self.makers {
            if maker.0 == lit {
                list.push(opposite(maker.1))?;
            }
        }
        Ok(list)
    }

    /// Adds the line of a latch.
    #[tactic(auto, unfolding(crate::specs::Aiger::with_latch))]
    pub fn latch(&mut self, line: &[u8]) -> Result<(), Memory>
        ensures { OnOk result (self.new ≡ with_latch self.old line.now) }
    {
        self.latches.extend_from_slice(line)?;
        Ok(())
    }
}
