//! The values of variables.
ghost use Rattle.std.specs.Prelude.{◌≡◌, ◌<◌, ◌++◌, ◌∷◌, ◌&&◌, [], not, ℕ, List, true, false, nat_le, length, get_or, set, IfOk};
ghost use Rattle.sat_text.specs.declared.words.Signed.{Signed};
ghost use Rattle.sat_text.specs.Values.{tells};
ghost use Rattle.sat_text.specs.Stands.{Marks, Holds};

use crate::words::Signed;
use containers::memory::Memory;
use std::alloc::Global;
use std::marker::Model;

/// For each of so many variables, counted from 0, whether its literal was told without a minus, and with one. Contracts see the lists of
/// that.
#[derive(Drop)]
pub struct Values {
    truths: Vec<bool>,
    falsehoods: Vec<bool>,
}

impl Model for Values {
    ghost use Rattle.std.specs.Prelude.{◌≡◌, length};
    ghost use Rattle.sat_text.specs.Stands.{Table};

    ghost Value = { Table };

    ghost view = { λ v. record { truths = v.truths.items; falsehoods = v.falsehoods.items } };

    ghost invariant = { λ v. length v.falsehoods.items ≡ length v.truths.items };
}

// Marks a place of a row, where that is free in the other row.
fn mark(row: &mut Vec<bool>, other: &[bool], place: usize) -> bool
    requires within { place < length row.old.items }
    requires long { length other.now ≡ length row.old.items }
    ensures long { length row.new.items ≡ length row.old.items }
    ensures marked { result ≡ true → (get_or other.now place false ≡ false) × (row.new.items ≡ set row.old.items place true) }
    ensures taken { result ≡ false → get_or other.now place false ≡ true }
{
    if other[place] {
        return false;
    }
    row[place] = true;
    true
}

impl Values {
    /// So many variables, of which nothing is told.
    pub fn new(alloc: Global, variables: u32) -> Result<Values, Memory>
        ensures { IfOk result (λ values. Holds variables [] values) }
    {
        Ok(Values {
            truths: vec![in alloc; false; variables as usize]?,
            falsehoods: vec![in alloc; false; variables as usize]?,
        })
    }

    /// Takes a literal, of a number that is not 0, and says whether there is such a variable, and the opposite was not told.
    #[tactic(auto, using(crate::proofs::ValueMarks::refused_past, crate::proofs::ValueMarks::refused_minus, crate::proofs::ValueMarks::refused_plain, crate::proofs::ValueMarks::taken_minus, crate::proofs::ValueMarks::taken_plain))]
    pub fn tell(&mut self, told: Signed) -> bool
        requires { 0 < told.number }
        ensures taken { (variables : ℕ) (literals : List Signed) → Holds variables literals self.old → result ≡ true
            → ((nat_le told.number variables && not (tells literals told.number (not told.minus))) ≡ true) × Holds variables (literals ++ told ∷ []) self.new }
        ensures refused { (variables : ℕ) (literals : List Signed) → Holds variables literals self.old → result ≡ false
            → (nat_le told.number variables && not (tells literals told.number (not told.minus))) ≡ false }
    {
        let place = (told.number - 1) as usize;
        if self.truths.len() <= place {
            return false;
        }
        if told.minus {
            mark(&mut self.falsehoods, &self.truths, place)
        } else {
            mark(&mut self.truths, &self.falsehoods, place)
        }
    }

    /// The values, variable by variable: one of which nothing is told is false.
    pub fn as_slice(&self) -> &[bool]
        ensures { result.now ≡ self.now.truths }
    {
        self.truths.as_slice()
    }
}
