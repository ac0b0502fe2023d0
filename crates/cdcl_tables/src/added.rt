//! A clause that was added to those of a formula.
use clause_base::literal::Lit;
use containers::SharedListOf;
use proof_log::literals::Literals;

/// How the literals of an added clause stand.
#[derive(Drop)]
pub enum Added {
    /// Where they can be read.
    Whole(SharedListOf<Lit>),
    /// In little room: nobody reads them any more.
    Packed(Literals),
}
