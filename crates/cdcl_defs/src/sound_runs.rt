ghost use Rattle.cdcl_defs.specs.Laws.{StartIsSound, AfterIsSound, AfterIsOnly, AfterAddsUp, AfterSettled, AfterIsWithin, AfterRests, AfterGrants, QuietIsShort, LogIsShort};

/// What holds of each state of a run, and that a run may be cut wherever one likes.
pub fn runs_are_sound()
    ensures start { StartIsSound }
    ensures sound { AfterIsSound }
    ensures only { AfterIsOnly }
    ensures adds_up { AfterAddsUp }
    ensures settled { AfterSettled }
    ensures within { AfterIsWithin }
    ensures rests { AfterRests }
    ensures grants { AfterGrants }
    ensures short { QuietIsShort }
    ensures short_log { LogIsShort }
{}
