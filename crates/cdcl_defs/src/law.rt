ghost use Rattle.cdcl_defs.specs.Run.{GoesOnAcrossCuts, IsAfterUnique};

/// Wherever a run is cut, it goes on to the same state.
pub fn cuts_are_free()
    ensures across { GoesOnAcrossCuts }
    ensures unique { IsAfterUnique }
{}
