//! What a certificate is, by the words of a line.

ghost use Rattle.std.specs.{Prelude.◌≡◌, Str.bytes_eq};
ghost use Rattle.never_text.specs.Certificate.{way_of, kind_of};

use sat_text::words::Words;

/// What a certificate is.
#[derive(Clone, Copy, PartialEq, Eq)]
pub enum Kind {
    /// Clauses that are read forward.
    Forward,
    /// Clauses that are read backward.
    Backward,
    /// Weights of facts.
    Weights,
}

/// Whether a word is this one.
fn is(word: &[u8], other: &[u8]) -> bool
    ensures { result ≡ bytes_eq word.now other.now }
{
    word == other
}

/// How clauses are read, by the words after `clauses`.
fn way_of(words: &mut Words<'_>) -> Option<Kind>
    ensures { result ≡ way_of words.old }
{
    let word = words.next()?;
    if !words.is_over() {
        return None;
    }
    if is(word, b"forward") {
        return Some(Kind::Forward);
    }
    if is(word, b"backward") {
        return Some(Kind::Backward);
    }
    None
}

/// What a line says that a certificate is.
pub fn kind_of(words: &mut Words<'_>) -> Option<Kind>
    ensures { result ≡ kind_of words.old }
{
    let word = words.next()?;
    if is(word, b"clauses") {
        return way_of(words);
    }
    if is(word, b"weights") && words.is_over() {
        return Some(Kind::Weights);
    }
    None
}
