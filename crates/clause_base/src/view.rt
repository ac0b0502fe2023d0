ghost use Rattle.std.specs.Prelude.{◌≡◌, ◌∷◌, ◌+◌, ◌<◌, ◌≤◌, Some, map, length, drop, slice_get, slice_index_or, All, OnOk};
ghost use Rattle.clause_base.specs.Clause.{IsRising};
ghost use Rattle.clause_base.specs.View.{shifted, IsMoved, StaysCode};

use crate::literal::Lit;
use containers::memory::Memory;
use std::marker::Model;

/// The literals of a clause as they stand, and how each is moved as it is read.
#[derive(Clone, Copy)]
pub struct Moving<'a> {
    pub lits: &'a [Lit],
    /// Codes below this one go up by `low`, and the others by `high`.
    pub limit: u32,
    pub low: u32,
    pub high: u32,
}

/// The literals of a clause, read where they stand: each is moved as it is read, so that a clause that is seen many times
/// stands once.
/// It is no `Copy`, since a struct that borrows and has a model can be none.
#[derive(Drop)]
pub struct View<'a> {
    lits: &'a [Lit],
    limit: u32,
    low: u32,
    high: u32,
}

impl<'a> Model for View<'a> {
    ghost use Rattle.std.specs.Prelude.{List, ℕ, map, All};
    ghost use Rattle.clause_base.specs.View.{shifted, IsMoved};

    ghost Value = { List ℕ };

    ghost view = { λ v. map (shifted v.limit v.low v.high) v.lits.now };

    ghost invariant = { λ v. IsMoved v.limit v.low v.high v.lits.now };
}

/// A literal whose code goes up by `low` where it is below the limit, and else by `high`.
#[inline]
fn shifted(lit: Lit, limit: u32, low: u32, high: u32) -> Lit
    requires { StaysCode limit low high lit }
    ensures { result ≡ shifted limit low high lit }
{
    if lit.0 < limit {
        Lit(low + lit.0)
    } else {
        Lit(high + lit.0)
    }
}

impl<'a> View<'a> {
    /// These literals, as they are.
    #[inline(always)]
    pub fn of(lits: &'a [Lit]) -> View<'a>
        ensures { result ≡ lits.now }
    {
        View {
            lits,
            limit: 0,
            low: 0,
            high: 0,
        }
    }

    /// These literals, of which the codes below the limit go up by `low`, and the others by `high`.
    #[inline(always)]
    pub(crate) fn moved(lits: &'a [Lit], limit: u32, low: u32, high: u32) -> View<'a>
        requires codes { All (StaysCode limit low high) lits.now }
        requires rising { IsRising lits.now }
        ensures { result ≡ map (shifted limit low high) lits.now }
    {
        View {
            lits,
            limit,
            low,
            high,
        }
    }

    /// How many literals there are.
    #[inline]
    pub fn len(&self) -> usize
        ensures { result ≡ length self.now }
    {
        self.lits.len()
    }

    /// The literal at a place, counted from 0.
    #[inline]
    pub fn get(&self, place: usize) -> Lit
        requires { place < length self.now }
        ensures value { slice_get self.now place ≡ Some result }
        ensures item { result ≡ slice_index_or self.now place result }
        ensures rest { drop place self.now ≡ result ∷ drop (place + 1) self.now }
    {
        let lits = self.lits;
        shifted(lits[place], self.limit, self.low, self.high)
    }

    /// The literals as they stand, and how each is moved. Who reads many of them goes along those below the limit first and then along
    /// the others, and does not choose for each.
    #[inline(always)]
    pub fn moving(&self) -> Moving<'a>
        ensures value { self.now ≡ map (shifted result.limit result.low result.high) result.lits.now }
        ensures moved { IsMoved result.limit result.low result.high result.lits.now }
    {
        Moving {
            lits: self.lits,
            limit: self.limit,
            low: self.low,
            high: self.high,
        }
    }

    /// Makes a vector hold these literals.
    pub(crate) fn copy_into(&self, lits: &mut Vec<Lit>) -> Result<(), Memory>
        ensures { OnOk result (lits.new.items ≡ self.now) }
    {
        lits.clear();
        for place in 0..self.len() {
            lits.push(self.get(place))?;
        }
        Ok(())
    }
}
