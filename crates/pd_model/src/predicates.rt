// The predicates.
use containers::ListOf;
use pd_sexp::Name;

/// A declared predicate. Predicates are numbered from 0 in order of declaration.
#[derive(Drop)]
pub struct Predicate {
    /// Its name.
    pub name: Name,
    /// How many terms its atoms have.
    pub arity: u32,
}

/// The declared predicates, by number.
pub type Predicates = ListOf<Predicate>;
