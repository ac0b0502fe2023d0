//! The first of the lines of a text.

ghost use Rattle.std.specs.Prelude.{◌≡◌, ◌+◌, ◌∷◌, [], ℕ, List, length, MatchOption};
ghost use Rattle.never_text.specs.Certificate.{lines_of};

use sat_text::lines::first_line;

/// The first line of a text, without its LF, and what follows it; none where it is the last line.
#[tactic(auto, using(crate::proofs::Lines::one_more, crate::proofs::Lines::last_one))]
pub fn next_line(text: &[u8]) -> (&[u8], Option<&[u8]>)
    ensures first { (more : List (List ℕ)) × (lines_of text.now ≡ result.0.now ∷ more) }
    ensures lines { MatchOption result.1 (lines_of text.now ≡ result.0.now ∷ []) (λ more. lines_of text.now ≡ result.0.now ∷ lines_of more.now) }
    ensures long { MatchOption result.1 (result.0.now ≡ text.now) (λ more. length result.0.now + 1 + length more.now ≡ length text.now) }
{
    match first_line(text) {
        Some((line, more)) => (line, Some(more)),
        None => (text, None),
    }
}
