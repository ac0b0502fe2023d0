//! What is wrong with a line.

/// Why a line is none of a certificate.
#[derive(Clone, Copy, PartialEq, Eq)]
pub enum Fault {
    /// The first line that is no comment says nothing that a certificate is, or there is no such line.
    Kind,
    /// A word is no number.
    Number,
    /// A number is that of no fact.
    Fact,
    /// A clause has no 0 at the end of its line, or the words of a weight are not two.
    End,
    /// A clause has too many literals.
    Long,
    /// The sum of the weights is too large.
    Sum,
}
