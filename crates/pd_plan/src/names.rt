// Where the names of a task are looked up.
ghost use Rattle.std.specs.Prelude.{◌≡◌, length};

use crate::PlanFault;
use pd_model::{ObjectDecl, Schema};
use pd_sexp::Name;
use pd_words::Table;
use std::alloc::Global;

/// The number of each name; of things with one name, that of the first.
#[derive(Drop)]
pub struct NameNumbers {
    /// The names, each once.
    table: Table,
    /// The number of the first thing of each name.
    firsts: Vec<u32>,
    ghost whole: { length table ≡ length firsts.items },
}

impl NameNumbers {
    ghost use Rattle.std.specs.Prelude.{◌≡◌, ◌<◌, ◌^◌, ℕ, List, IfOk, IfErr, length, cond, Some, None};
    ghost use Rattle.std.specs.Str.{bytes_eq};
    ghost use Rattle.pd_words.specs.Names.{number_of, or_else};
    ghost use Rattle.pd_plan.specs.own.Names.{looked_up};
    ghost use Rattle.pd_plan.specs.declared.fault.PlanFault.TheVariants.{Memory};
    ghost use Rattle.pd_model.specs.Names.{object_names, schema_names};

    fn new(alloc: Global) -> Self
        ensures { (name : List ℕ) → looked_up result name ≡ None }
    {
        NameNumbers {
            table: Table::new(alloc),
            firsts: Vec::new(alloc),
        }
    }

    /// The number that the name has.
    pub fn number(&self, name: &Name) -> Option<u32>
        ensures { result ≡ looked_up self.now name.now }
    {
        match self.table.number(name) {
            None => None,
            Some(place) => self.firsts.get(place as usize).copied(),
        }
    }

    // With a number for the name, unless it has one.
    fn with(self, alloc: Global, name: &Name, number: u32) -> Result<Self, PlanFault>
        ensures with { IfOk result (λ n. (other : List ℕ) → looked_up n other ≡ or_else (looked_up self other) (cond (bytes_eq other name.now) (Some number) None)) }
        ensures memory { IfErr result (λ e. e ≡ Memory) }
    {
        if self.table.number(name).is_some() {
            return Ok(self);
        }
        let NameNumbers {
            mut table,
            mut firsts,
        } = self;
        firsts.push(number)?;
        match table.add(alloc, name) {
            Ok(()) => Ok(NameNumbers { table, firsts }),
            Err(_) => Err(PlanFault::Memory),
        }
    }

    /// The numbers of the schemas' names.
    pub fn of_schemas(alloc: Global, schemas: &[Schema]) -> Result<Self, PlanFault>
        requires { length schemas.now < 2 ^ 32 }
        ensures numbers { IfOk result (λ n. (name : List ℕ) → looked_up n name ≡ number_of name (schema_names schemas.now)) }
        ensures memory { IfErr result (λ e. e ≡ Memory) }
    {
        let mut numbers = NameNumbers::new(alloc);
        for (i, schema) in schemas.iter().enumerate() {
            numbers = numbers.with(alloc, &schema.name, i as u32)?;
        }
        Ok(numbers)
    }

    /// The numbers of the objects' names.
    pub fn of_objects(alloc: Global, objects: &[ObjectDecl]) -> Result<Self, PlanFault>
        requires { length objects.now < 2 ^ 32 }
        ensures numbers { IfOk result (λ n. (name : List ℕ) → looked_up n name ≡ number_of name (object_names objects.now)) }
        ensures memory { IfErr result (λ e. e ≡ Memory) }
    {
        let mut numbers = NameNumbers::new(alloc);
        for (i, object) in objects.iter().enumerate() {
            numbers = numbers.with(alloc, &object.name, i as u32)?;
        }
        Ok(numbers)
    }
}
