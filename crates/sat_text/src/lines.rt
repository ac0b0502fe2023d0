//! The lines of a text.
ghost use Rattle.std.specs.Prelude.{◌≡◌, ◌<◌, ◌++◌, ◌∷◌, true, length, IfSome, IfNone};
ghost use Rattle.sat_text.specs.Lines.{has_no_end};

use memchr::memchr;

/// The first line of a text, without its LF, and what follows it; none where there is no LF.
pub fn first_line(text: &[u8]) -> Option<(&[u8], &[u8])>
    ensures fewer { IfSome result (λ parts. length parts.1.now < length text.now) }
    ensures some { IfSome result (λ parts. (has_no_end parts.0.now ≡ true) × (text.now ≡ parts.0.now ++ 10 ∷ parts.1.now)) }
    ensures none { IfNone result (has_no_end text.now ≡ true) }
{
    let place = memchr(b'\n', text)?;
    Some((&text[..place], &text[place + 1..]))
}
