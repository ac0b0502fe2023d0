// Reserved heads.
ghost use Rattle.std.specs.Prelude.{◌≡◌};
ghost use Rattle.pd_sexp.specs.View.{view};
ghost use Rattle.pd_words.specs.Words as words;

use crate::words::{is, is_any};
use pd_sexp::{Name, Tree};

/// What a list's first word makes of it.
#[derive(Clone, Copy, PartialEq, Eq)]
pub enum Keyword {
    And,
    Not,
    Equals,
    Forall,
    When,
    /// `or`, `imply`, `exists`, `preference`, `<`, `>`, `<=` and `>=`.
    Other,
    /// `increase`, `decrease`, `assign`, `scale-up` and `scale-down`.
    Assignment,
    /// No reserved head.
    Free,
}

/// What the word makes of the list that it heads.
pub fn keyword_of(word: &Name) -> Keyword
    ensures { result ≡ words.keyword word.now }
{
    if is(word, "and") {
        Keyword::And
    } else if is(word, "not") {
        Keyword::Not
    } else if is(word, "=") {
        Keyword::Equals
    } else if is(word, "forall") {
        Keyword::Forall
    } else if is(word, "when") {
        Keyword::When
    } else if is_left_out(word) {
        Keyword::Other
    } else if is_assignment(word) {
        Keyword::Assignment
    } else {
        Keyword::Free
    }
}

fn is_left_out(word: &Name) -> bool
    ensures { result ≡ words.is_left_out word.now }
{
    is_any!(word; "or", "imply", "exists", "preference", "<", ">", "<=", ">=")
}

fn is_assignment(word: &Name) -> bool
    ensures { result ≡ words.is_assignment word.now }
{
    is_any!(word; "increase", "decrease", "assign", "scale-up", "scale-down")
}

/// What a list's first item makes of it.
pub fn head_keyword(head: &Tree) -> Keyword
    ensures { result ≡ words.head_of (view head.now) }
{
    match head {
        Tree::Word { text, .. } => keyword_of(text),
        Tree::List { .. } => Keyword::Free,
    }
}
