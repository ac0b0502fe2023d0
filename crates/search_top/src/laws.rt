//! What the crates below promise, gathered.
ghost use Rattle.search_top.specs.Laws.{TopLaws};

/// The laws on which the promises rest, for proofs; it does nothing.
pub(crate) fn laws()
    ensures { TopLaws }
{
    grounding_defs::laws::laws();
    search_laws::laws::laws();
    never_laws::laws::laws();
    never_text::laws::laws();
    pd_plan::laws();
}
