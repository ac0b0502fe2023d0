//! The laws of certificates as texts.
ghost use Rattle.proof_log.specs.Laws.{OneSpelling, LinesAreRead, TextsAreFit, OnePlace};

/// A text is that of one horizon and one log, has their lines, and is unfit nowhere; other bytes are unfit at one place. It does nothing.
pub fn laws()
    ensures one_spelling { OneSpelling }
    ensures lines_read { LinesAreRead }
    ensures fit { TextsAreFit }
    ensures one_place { OnePlace }
{}
