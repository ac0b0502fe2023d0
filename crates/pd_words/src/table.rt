// Tables of names: the names in order of declaration, and a map to their numbers.
ghost use Rattle.std.specs.Prelude.{◌≡◌, ◌<◌, ◌≤◌, ◌^◌, ℕ, List, [], ◌∷◌, ◌++◌, length, OnOk, OnErr, IfErr, IfSome, is_some, None, ◌-◌};
ghost use Rattle.std.specs.Ordering.{nat_cmp};
ghost use Rattle.std.specs.Cmp.Lexicographic.{slice_cmp};
ghost use Rattle.std.specs.BTreeMap.{get_by};
ghost use Rattle.pd_words.specs.Names.{number_of, is_among};
ghost use Rattle.pd_words.specs.declared.fault.ReadError.TheVariants as errors;

use crate::fault::ReadError;
use crate::named::copy_name;
use containers::let_go;
use pd_sexp::Name;
use std::alloc::Global;
use std::collections::BTreeMap;
use std::marker::Model;

/// Distinct names, numbered from 0 in the order in which they were added.
pub struct Table {
    names: Vec<Name>,
    numbers: BTreeMap<Vec<u8>, u32>,
}

impl Model for Table {
    ghost Value = { List (List ℕ) };

    ghost view = { λ t. t.names.items };

    ghost invariant = { λ t. (name : List ℕ) → get_by (λ key. slice_cmp nat_cmp name key.items) t.numbers ≡ number_of name t.names.items };
}

/// All parts are let go in one call, so that a proof has one step for it and not one for each part.
impl Drop for Table {
    fn drop(self) {
        let_go!(self: Table { names, numbers });
    }
}

impl Table {
    /// No names; takes no memory.
    pub fn new(alloc: Global) -> Self
        ensures { result ≡ [] }
    {
        Table {
            names: Vec::new(alloc),
            numbers: BTreeMap::new(alloc),
        }
    }

    /// The number of a name.
    pub fn number(&self, name: &Name) -> Option<u32>
        ensures number { result ≡ number_of name.now self.now }
        ensures below { IfSome result (λ i. i < length self.now) }
        ensures among { is_some result ≡ is_among name.now self.now }
    {
        self.find(name.as_slice())
    }

    fn find(&self, name: &[u8]) -> Option<u32>
        ensures { result ≡ number_of name.now self.now }
    {
        self.numbers.get(name).copied()
    }

    /// How many names there are.
    pub fn len(&self) -> usize
        ensures { result ≡ length self.now }
    {
        self.names.as_slice().len()
    }

    /// The names, by number.
    pub fn names(&self) -> &[Name]
        ensures { result.now ≡ self.now }
    {
        &self.names
    }

    /// Gives a new name the next number. It fails only for want of memory.
    pub fn add(&mut self, alloc: Global, name: &Name) -> Result<(), ReadError>
        requires { number_of name.now self.old ≡ None }
        ensures added { OnOk result (self.new ≡ self.old ++ name.now ∷ []) }
        ensures unchanged { OnErr result (self.new ≡ self.old) }
        ensures memory { IfErr result (λ e. e ≡ errors.Memory) }
    {
        let count = self.names.as_slice().len();
        if count >= u32::MAX as usize {
            return Err(ReadError::Memory);
        }
        let key = Vec::from_slice(alloc, name.as_slice())?;
        let kept = copy_name(alloc, name)?;
        self.put(key, kept, count as u32)
    }

    // Puts a new name at the end, and the next number under its bytes.
    fn put(&mut self, key: Vec<u8>, kept: Name, number: u32) -> Result<(), ReadError>
        requires same { key.items ≡ kept }
        requires number { number ≡ length self.old }
        requires fresh { number_of kept self.old ≡ None }
        ensures added { OnOk result (self.new ≡ self.old ++ kept ∷ []) }
        ensures unchanged { OnErr result (self.new ≡ self.old) }
        ensures memory { IfErr result (λ e. e ≡ errors.Memory) }
    {
        self.names.reserve(1)?;
        self.numbers.insert(key, number)?;
        self.names.push(kept)?;
        Ok(())
    }
}
