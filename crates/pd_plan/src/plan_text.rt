// What a plan that is printed line by line is read as.
ghost use Rattle.pd_plan.specs.Laws.{CallsAreLines, CallsBegin, NothingIsSpelled, CommentsAddNone, CallsAreSpelled, SpelledAreRead};

/// Laws of printed plans, for proofs; it does nothing.
///
/// The text of a call is one line that begins with a parenthesis, so it is no comment. A text of comments and of calls,
/// each on a line of its own, spells these calls, and what is spelled is what the file is read as.
pub fn laws()
    ensures line { CallsAreLines }
    ensures begins { CallsBegin }
    ensures nothing { NothingIsSpelled }
    ensures comment { CommentsAddNone }
    ensures call { CallsAreSpelled }
    ensures reads { SpelledAreRead }
{}
