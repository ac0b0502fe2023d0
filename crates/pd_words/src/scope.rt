// The variables in scope.
ghost use Rattle.std.specs.Prelude.{◌≡◌, ◌+◌, ◌∷◌, ◌++◌, ◌-◌, [], length, take, Option, option_map, IfOk, IfErr, OnOk};
ghost use Rattle.pd_words.specs.Names.{or_else, variable_number};
ghost use Rattle.pd_words.specs.declared.fault.ReadError.TheVariants as errors;

use crate::fault::ReadError;
use crate::table::Table;
use crate::variables::Variables;
use pd_sexp::Name;
use std::alloc::Global;
use std::marker::Model;

/// The variables in scope, list by list, the outermost first, and the types of those that stand in a
/// `forall`.
#[derive(Drop)]
pub struct Scope {
    levels: Vec<Table>,
    over: Vec<u32>,
}

impl Model for Scope {
    ghost use Rattle.pd_words.specs.Standing.{Standing};

    ghost Value = { Standing };

    ghost view = { λ s. record { levels = s.levels.items; over = s.over.items } };
}

impl Scope {
    /// No variables; takes no memory.
    pub fn new(alloc: Global) -> Self
        ensures { result ≡ record { levels = []; over = [] } }
    {
        Scope {
            levels: Vec::new(alloc),
            over: Vec::new(alloc),
        }
    }

    /// These parameters alone.
    pub fn of(alloc: Global, parameters: Table) -> Result<Self, ReadError>
        ensures scope { IfOk result (λ s. s ≡ record { levels = parameters ∷ []; over = [] }) }
        ensures memory { IfErr result (λ e. e ≡ errors.Memory) }
    {
        let mut levels = Vec::new(alloc);
        levels.push(parameters)?;
        Ok(Scope {
            levels,
            over: Vec::new(alloc),
        })
    }

    /// The types of the variables that stand in a `forall`.
    pub fn over(&self) -> &[u32]
        ensures { result.now ≡ self.now.over }
    {
        self.over.as_slice()
    }

    /// The number of the innermost variable of this name. It fails only for want of memory.
    #[tactic(auto, using(crate::proofs::Levels::or_else_assoc))]
    pub fn number(&self, name: &Name) -> Result<Option<u32>, ReadError>
        ensures number { IfOk result (λ o. o ≡ variable_number name.now 0 self.now.levels) }
        ensures memory { IfErr result (λ e. e ≡ errors.Memory) }
    {
        let mut found = None;
        let mut first: u32 = 0;
        for level in self.levels.as_slice() {
            found = hiding(first, level.number(name), found)?;
            first = sum(first, level.len())?;
        }
        Ok(found)
    }

    /// Puts the variables of a `forall` into scope. It fails only for want of memory.
    pub fn enter(&mut self, variables: Variables) -> Result<(), ReadError>
        ensures levels { OnOk result (self.new.levels ≡ self.old.levels ++ variables.names ∷ []) }
        ensures over { OnOk result (self.new.over ≡ self.old.over ++ variables.kinds.items) }
        ensures memory { IfErr result (λ e. e ≡ errors.Memory) }
    {
        let Variables { names, kinds } = variables;
        self.over.extend_from_slice(kinds.as_slice())?;
        self.levels.push(names)?;
        Ok(())
    }

    /// Takes the innermost variables out of scope, where this many stood in a `forall` before.
    pub fn leave(&mut self, count: usize)
        ensures levels { self.new.levels ≡ take (length self.old.levels - 1) self.old.levels }
        ensures over { self.new.over ≡ take count self.old.over }
    {
        self.levels.pop();
        self.over.truncate(count);
    }
}

// The number of an inner variable, where there is one; else that of an outer one.
fn hiding(first: u32, inner: Option<u32>, outer: Option<u32>) -> Result<Option<u32>, ReadError>
    ensures number { IfOk result (λ o. o ≡ or_else (option_map (λ i. first + i) inner) outer) }
    ensures memory { IfErr result (λ e. e ≡ errors.Memory) }
{
    match inner {
        None => Ok(outer),
        Some(i) => match first.checked_add(i) {
            None => Err(ReadError::Memory),
            Some(number) => Ok(Some(number)),
        },
    }
}

fn sum(first: u32, count: usize) -> Result<u32, ReadError>
    ensures sum { IfOk result (λ n. n ≡ first + count) }
    ensures memory { IfErr result (λ e. e ≡ errors.Memory) }
{
    if count > (u32::MAX - first) as usize {
        return Err(ReadError::Memory);
    }
    Ok(first + count as u32)
}
