// The types of objects.
use containers::{ListOf, SharedListOf};
use pd_sexp::Name;

/// A declared type. Types are numbered from 0; type 0 is `object`, its own parent.
#[derive(Drop)]
pub struct TypeDecl {
    /// Its name.
    pub name: Name,
    /// The number of the type that it lies under.
    pub parent: u32,
}

/// The declared types, by number.
pub type Types = ListOf<TypeDecl>;

/// Numbers of types: those of parameters, or of the variables of a `forall`.
pub type TypeNumbers = ListOf<u32>;

/// Numbers of types in memory that all effects share which stand under the same `forall`.
pub type SharedTypeNumbers = SharedListOf<u32>;
