// Action schemas.
use crate::{Conds, Effects, TypeNumbers};
use containers::ListOf;
use pd_sexp::Name;

/// An action with variables. Schemas are numbered from 0 in order of declaration.
#[derive(Drop)]
pub struct Schema {
    /// Its name.
    pub name: Name,
    /// The types of its parameters.
    pub parameters: TypeNumbers,
    /// The precondition.
    pub pre: Conds,
    /// What it does.
    pub effects: Effects,
}

/// The action schemas, by number.
pub type Schemas = ListOf<Schema>;
