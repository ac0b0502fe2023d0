//! What holds of all settings, as a contract.
ghost use Rattle.requests.specs.Seen.{NumbersAreSettings};

/// Settings with the same numbers are the same. It does nothing.
pub fn laws()
    ensures { NumbersAreSettings }
{}
