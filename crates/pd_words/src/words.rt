// The kinds of word.
ghost use Rattle.std.specs.Prelude.{◌≡◌};
ghost use Rattle.std.specs.Str.{bytes_eq};
ghost use Rattle.pd_words.specs.Words as words;

use pd_sexp::Name;

/// Whether the word is this text.
pub fn is(word: &Name, text: &str) -> bool
    ensures { result ≡ bytes_eq word.now text.now }
{
    word.as_slice() == text.as_bytes()
}

/// `is_any!(word; "a", "b", ..)`: whether the word is one of these texts, which are looked at in this order.
macro_rules! is_any {
    ($word:expr; $first:literal $(, $text:literal)*) => {
        is($word, $first) $(|| is($word, $text))*
    };
}

pub(crate) use is_any;

/// Whether the word stands before a type in a typed list.
pub fn is_dash(word: &Name) -> bool
    ensures { result ≡ words.is_dash word.now }
{
    is(word, "-")
}

/// Whether the word is a name: it begins with neither `?` nor `:`, and is neither `-` nor `=`.
pub fn is_name(word: &Name) -> bool
    ensures { result ≡ words.is_name word.now }
{
    match word.as_slice() {
        [] => false,
        [first, ..] => *first != b'?' && *first != b':' && !is_dash(word) && !is(word, "="),
    }
}

/// Whether the word is a variable: `?` and at least one byte more.
pub fn is_variable(word: &Name) -> bool
    ensures { result ≡ words.is_variable word.now }
{
    match word.as_slice() {
        [first, _, ..] => *first == b'?',
        _ => false,
    }
}
