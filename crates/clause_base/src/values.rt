ghost use Rattle.std.specs.Prelude.{◌≡◌, ◌==◌, ℕ, ◌<◌, ◌≤◌, ◌*◌, ◌/◌, ◌%◌, Some, None, false, length, slice_get, slice_set, slice_index_or, replicate, IfOk, IfSome, IfNone};
ghost use Rattle.clause_base.specs.Choice.{least_open};
ghost use Rattle.clause_base.specs.ValueTruths.{AreGivenBelow, says, value_at};

use crate::literal::Lit;
use containers::let_go;
use containers::memory::Memory;
use std::alloc::Global;
use std::marker::Model;

/// For each of at most 2,147,483,647 variables true, false or not given. They are kept as the truth of each literal by its code: a
/// solver asks for literals far more often than for variables, and makes a literal true or takes it back by one write.
pub struct Values {
    variables: u32,
    on: Vec<bool>,
    low: u32,
}

impl Model for Values {
    ghost use Rattle.std.specs.Prelude.{List, Option, Bool};
    ghost use Rattle.clause_base.specs.ValueTruths.{values_of, AreTruths};

    ghost Value = { List (Option Bool) };

    ghost view = { λ v. values_of v.variables v.on.items };

    ghost invariant = { λ v. AreTruths v.variables v.low v.on.items };
}

/// All parts are let go in one call, so that a proof has one step for it and not one for each part.
impl Drop for Values {
    fn drop(self) {
        let_go!(self: Values { variables, on, low });
    }
}

/// The least variable below a bound neither of whose literals is true, where those below a place have values.
fn first_open(on: &[bool], low: u32, bound: u32) -> Option<u32>
    requires given { AreGivenBelow low on.now }
    requires low { low ≤ bound }
    requires size { length on.now ≡ 2 * bound }
    requires small { bound ≤ 2147483647 }
    ensures within { IfSome result (λ v. v < bound) }
    ensures given { IfSome result (λ v. AreGivenBelow v on.now) }
    ensures clear { IfSome result (λ v. value_at on.now v ≡ None) }
    ensures all { IfNone result (AreGivenBelow bound on.now) }
{
    for v in low..bound {
        let code = 2 * v as usize;
        if !on[code] && !on[code + 1] {
            return Some(v);
        }
    }
    None
}

impl Values {
    /// Values of so many variables, none of them given.
    pub fn new(alloc: Global, variables: u32) -> Result<Values, Memory>
        requires { variables ≤ 2147483647 }
        ensures { IfOk result (λ values. values ≡ replicate variables None) }
    {
        Ok(Values {
            variables,
            on: vec![in alloc; false; 2 * variables as usize]?,
            low: 0,
        })
    }

    /// How many variables there are.
    pub fn variables(&self) -> u32
        ensures value { result ≡ length self.now }
        ensures small { length self.now ≤ 2147483647 }
    {
        self.variables
    }

    /// The value of a variable, if it is given; none past the last variable.
    pub fn get(&self, v: u32) -> Option<bool>
        ensures value { v < length self.now → slice_get self.now v ≡ Some result }
        ensures past { length self.now ≤ v → result ≡ None }
    {
        if v >= self.variables {
            return None;
        }
        let code = 2 * v as usize;
        if self.on[code] {
            Some(true)
        } else if self.on[code + 1] {
            Some(false)
        } else {
            None
        }
    }

    /// For each literal by its code whether it is true.
    #[inline(always)]
    pub fn truths(&self) -> &[bool]
        ensures size { length result.now ≡ 2 * length self.now }
        ensures truths { (l : ℕ) → l < 2 * length self.now → slice_index_or result.now l false ≡ says self.now l }
    {
        self.on.as_slice()
    }

    /// Gives a variable a value, or takes its value back.
    pub fn set(&mut self, v: u32, value: Option<bool>)
        requires { v < length self.old }
        ensures { self.new ≡ slice_set self.old v value }
    {
        let code = 2 * v as usize;
        match value {
            Some(true) => {
                self.on[code] = true;
                self.on[code + 1] = false;
            }
            Some(false) => {
                self.on[code] = false;
                self.on[code + 1] = true;
            }
            None => {
                self.on[code] = false;
                self.on[code + 1] = false;
                self.low = self.low.min(v);
            }
        }
    }

    /// Makes a literal true whose variable has no value.
    #[inline(always)]
    pub fn make_true(&mut self, lit: Lit)
        requires { slice_get self.old (lit / 2) ≡ Some None }
        ensures { self.new ≡ slice_set self.old (lit / 2) (Some (lit % 2 == 0)) }
    {
        self.on[lit.0 as usize] = true;
    }

    /// Takes the value of a true literal's variable back.
    #[inline(always)]
    pub fn take_back(&mut self, lit: Lit)
        requires { slice_get self.old (lit / 2) ≡ Some (Some (lit % 2 == 0)) }
        ensures { self.new ≡ slice_set self.old (lit / 2) None }
    {
        self.on[lit.0 as usize] = false;
        self.low = self.low.min(lit.0 / 2);
    }

    /// The least variable without a value. The search begins at a place below which all variables have values: where
    /// `pass_given` left it, or at a variable below that whose value was taken back.
    pub fn least_open(&self) -> Option<u32>
        ensures value { result ≡ least_open self.now }
        ensures below { IfSome result (λ v. v < length self.now) }
        ensures small { length self.now ≤ 2147483647 }
    {
        first_open(&self.on, self.low, self.variables)
    }

    /// Lets later calls of `least_open` begin at the least variable without a value. The values stay as they are.
    pub fn pass_given(&mut self)
        ensures { self.new ≡ self.old }
    {
        self.low = match first_open(&self.on, self.low, self.variables) {
            Some(v) => v,
            None => self.variables,
        };
    }
}
